// The sightings of a spoiled list parted, by their reasons, into those that are kept and those that are dropped.
// The lists are lent, so their lengths are asked here, each against the number of sightings.
ghost use Rattle.std.specs.Prelude.{◌≡◌, ◌==◌, not, ◌+◌, pos, length, get_or};
ghost use Rattle.std.specs.List.{list_all};
ghost use Rattle.std.proofs.lemmas.List.Edits.{sets};
ghost use Rattle.exact.specs.Gather.{gather};
ghost use Rattle.station.specs.Steps.{free};

// Each lent answer list has a place for each of the n sightings.
pub fn rooms_fit(n: usize, rooms: [usize; 6]) -> bool
    ensures { result ≡ list_all (λ room. room == n) rooms }
{
    rooms.iter().all(|room| *room == n)
}

// One field of the sightings that have no reason, in their order, into the first places of a lent list. Answers how many they are.
// The place is counted here: it is the answer too, and a chain that both writes and counts would say it in more words.
pub fn keep(reason: &[u8], field: &[i64], kept: &mut [i64]) -> usize
    requires { (length field.now ≡ length reason.now) × (length kept.old ≡ length reason.now) }
    ensures list { kept.new ≡ sets kept.old 0 (gather (length reason.now) (free reason.now) (λ h. get_or field.now h (pos 0))) }
    ensures count { result ≡ length (gather (length reason.now) (free reason.now) (λ h. get_or field.now h (pos 0))) }
{
    let mut n = 0;
    for (h, why) in reason.iter().enumerate() {
        if *why == 0 {
            kept[n] = field[h];
            n += 1;
        }
    }
    n
}

// The ordinals and the reasons of the others, in the same way. Not one with `keep`: here two lists share each place, and an ordinal is in no lent
// list, so that the test and what is written would both be closures.
pub fn list_dropped(reason: &[u8], ordinals: &mut [u64], reasons: &mut [u64]) -> usize
    requires { (length ordinals.old ≡ length reason.now) × (length reasons.old ≡ length reason.now) }
    ensures ordinals { ordinals.new ≡ sets ordinals.old 0 (gather (length reason.now) (λ h. not (free reason.now h)) (λ h. h + 1)) }
    ensures reasons { reasons.new ≡ sets reasons.old 0 (gather (length reason.now) (λ h. not (free reason.now h)) (λ h. get_or reason.now h 0)) }
    ensures count { result ≡ length (gather (length reason.now) (λ h. not (free reason.now h)) (λ h. h + 1)) }
{
    let mut n = 0;
    for (h, why) in reason.iter().enumerate() {
        if *why != 0 {
            ordinals[n] = h as u64 + 1;
            reasons[n] = u64::from(*why);
            n += 1;
        }
    }
    n
}
