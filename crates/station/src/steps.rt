// The rescue of a spoiled list. Whether a sighting stays hangs on its position and object alone, so the four steps go over the station's table: each
// notes at its place why a position and object is dropped, and clears it from the table, which is then that of the list as the step left it.
// The place of a position and object is that in the order of the checks, 0 to 255; a reason is the number of the step, and 0 where it stays: a number,
// since these are the ones that `judge` writes into its lent list.
ghost use Rattle.std.specs.Prelude.{◌≡◌, ◌<◌, length, get_or};
ghost use Rattle.exact.specs.First.{some_below};
ghost use Rattle.exact.specs.Tabulate.{tabulate};
ghost use Rattle.station.specs.Bounds.{book_of};
ghost use Rattle.station.specs.Rescue.{place_of};
ghost use Rattle.station.specs.Steps.{noted, cleared, why_after, free};

use crate::PLACES;
use crate::checks::{Check, fault_at};
use crate::fields::SoundSightings;
use crate::table::{Table, slot_of};

// Notes the step at each place that its check finds at fault.
fn note(check: Check, step: u8, table: &Table, why: &mut [u8; PLACES])
    ensures { why.new ≡ noted check step table.now.count table.now.sums why.old }
{
    for k in 0..PLACES {
        if fault_at(check, table, k) {
            why[k] = step;
        }
    }
}

// One step: afterwards the table is that of the list that it leaves.
fn step(check: Check, number: u8, table: &mut Table, why: &mut [u8; PLACES])
    ensures reasons { why.new ≡ noted check number table.old.count table.old.sums why.old }
    ensures counts { table.new.count ≡ cleared why.new table.old.count }
    ensures sums { table.new.sums ≡ cleared why.new table.old.sums }
{
    note(check, number, table, why);
    table.clear(why);
}

// The reasons of the four steps. A reason is the number of its step, 1 to 4, as the rules and C have it.
pub fn all(table: &mut Table) -> [u8; PLACES]
    ensures { result ≡ why_after 4 table.old.count table.old.sums }
{
    let mut why = [0u8; PLACES];
    step(Check::PairsWhole, 1, table, &mut why);
    step(Check::InitialSeen, 2, table, &mut why);
    step(Check::FacesClose, 3, table, &mut why);
    step(Check::InitialSeen, 4, table, &mut why);
    why
}

// The place of the position and object of the sighting at h.
fn place_of(sightings: &SoundSightings, h: usize) -> usize
    requires { h < length sightings.now.lists.position.now }
    ensures { (result ≡ place_of (book_of sightings.now.lists) h) × (result < 256) }
{
    slot_of(0, sightings.lists.position[h], sightings.lists.object[h])
}

// Some sighting stays.
pub fn any_kept(sightings: &SoundSightings, why: &[u8; PLACES]) -> bool
    ensures { result ≡ some_below (length sightings.now.lists.position.now) (λ h. free why.now (place_of (book_of sightings.now.lists) h)) }
{
    (0..sightings.lists.position.len()).any(|h| why[place_of(sightings, h)] == 0)
}

// The reason of each sighting.
pub fn write_reasons(sightings: &SoundSightings, why: &[u8; PLACES], reason: &mut [u8])
    requires { length reason.old ≡ length sightings.now.lists.position.now }
    ensures { reason.new ≡ tabulate (length sightings.now.lists.position.now) (λ h. get_or why.now (place_of (book_of sightings.now.lists) h) 0) }
{
    for h in 0..sightings.lists.position.len() {
        reason[h] = why[place_of(sightings, h)];
    }
}
