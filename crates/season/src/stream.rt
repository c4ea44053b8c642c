// An archive that comes in parts, in fixed memory. The state stands in three lent lists: the bytes of the open net, the totals of the nets before it,
// and the place, three numbers. Each byte is looked at once.
ghost use Rattle.std.specs.Prelude.{◌≡◌, ◌≤◌, length};
ghost use Rattle.season.specs.Stream.{stream, kept_in, kept_bytes, line_after, open_share, closes, closed, taken, fed, ended_place, ended_totals};
ghost use Rattle.season.specs.Stream.{place_of, place_list, most_at, line_amiss, totals_reply, place_reply};
ghost use Rattle.reply.specs.Checks.{◌and_then◌};
ghost use Rattle.totals.specs.Promise.{most_total};
ghost use Rattle.season.specs.Inner.{Roomy, Sound};
ghost use Rattle.season.specs.Promise.{Begins, Feeds, Ends};

use crate::{archive, net};
use reply::Refusal;
use text::LF;
use totals::{MOST_NETS, MOST_TOTAL, TOO_MANY_NETS, TOTALS};

// Room for the longest net and the full stop that closes it; a net whose bytes are counted past it has more.
pub const ROOM: usize = 65_536;

const OVER: u64 = 65_537;

// How many numbers the place has.
pub const PLACES: usize = 3;

// Where a stream stands: how many bytes the open net has, counted to 65,537; 0 at the start of a line, 1 after a full stop there, 2 elsewhere;
// and 1 once a net past 100,000 has come. Numbers and no enum or bool: they are those that the lent list holds, and a list may hold others.
#[derive(Clone, Copy, Debug, PartialEq, Eq)]
pub struct Place {
    pub bytes: u64,
    pub line: u64,
    pub past: u64,
}

// The place that a lent list holds.
impl From<[u64; PLACES]> for Place {
    ghost from_gives = { λ list place. place ≡ place_of list };

    #[tactic(auto, unfolding(crate::specs::Stream::place_of))]
    fn from(list: [u64; PLACES]) -> Place {
        let [bytes, line, past] = list;
        Place { bytes, line, past }
    }
}

// The place, as a lent list holds it.
impl From<Place> for [u64; PLACES] {
    ghost from_gives = { λ p list. list ≡ place_list p };

    #[tactic(auto, unfolding(crate::specs::Stream::place_list))]
    fn from(p: Place) -> [u64; PLACES] {
        [p.bytes, p.line, p.past]
    }
}

// A byte of the open net is kept where there is room: the list and the count beside it, as the rule's `kept_in` has them.
#[tactic(auto, unfolding(crate::specs::Stream::kept_in))]
fn keep(byte: u8, held: &mut [u8; ROOM], bytes: u64)
    ensures { held.new ≡ kept_in held.old bytes byte }
{
    if bytes < ROOM as u64 {
        held[bytes as usize] = byte;
    }
}

// How many bytes the open net then has.
#[tactic(auto, unfolding(crate::specs::Stream::kept_bytes))]
fn kept_bytes(bytes: u64) -> u64
    ensures { result ≡ kept_bytes bytes }
{
    if bytes < OVER { bytes + 1 } else { bytes }
}

// Where in its line the stream then stands.
#[tactic(auto, unfolding(crate::specs::Stream::line_after))]
fn line_after(line: u64, byte: u8) -> u64
    ensures { result ≡ line_after line byte }
{
    match (line, byte) {
        (_, LF) => 0,
        (0, b'.') => 1,
        _ => 2,
    }
}

// Whether a byte closes the open net: the LF of a full stop line.
#[tactic(auto, unfolding(crate::specs::Stream::closes))]
fn closes(byte: u8, line: u64) -> bool
    ensures { result ≡ closes byte line }
{
    byte == LF && line == 1
}

// A stream that has passed the checks: two of the lists that are lent, and the place that the third holds. Nothing compares or prints it.
// The place is in numbers here too: the rules step them (`line_after`, `closes`), and they go back into the list.
#[derive(Drop)]
struct Open<'a> {
    held: &'a mut [u8; ROOM],
    totals: &'a mut [u64; TOTALS],
    place: Place,
    ghost sound: { Sound most_total (stream held.now totals.now place) },
}

impl<'a> Open<'a> {
    ghost use Rattle.season.specs.Open.{state, GoesTo};

    // The share of the open net, without the full stop that closes it.
    #[tactic(auto, unfolding(crate::specs::Stream::open_share))]
    fn share(&self) -> [u64; TOTALS]
        requires { 1 ≤ self.now.place.bytes }
        ensures { result ≡ open_share self.now.held.now self.now.place.bytes }
    {
        let bytes = self.place.bytes;
        if bytes > ROOM as u64 {
            net::long()
        } else {
            net::share(&self.held[..bytes as usize - 1])
        }
    }

    // The open net is closed: its share is counted, and a new net begins.
    fn close(&mut self)
        requires { 1 ≤ self.old.place.bytes }
        ensures { GoesTo self.old (closed (state self.old)) self.new }
    {
        let counted = archive::count(self.share(), self.totals);
        self.place = Place {
            bytes: 0,
            line: 0,
            past: u64::from(counted.is_err()),
        };
    }

    // One byte: the LF of a full stop line closes the open net, any other byte belongs to it.
    #[tactic(auto, unfolding(crate::specs::Stream::taken))]
    fn take(&mut self, byte: u8)
        ensures { GoesTo self.old (taken byte (state self.old)) self.new }
    {
        let Place { bytes, line, .. } = self.place;
        if closes(byte, line) {
            self.close();
            return;
        }
        keep(byte, self.held, bytes);
        self.place = Place {
            bytes: kept_bytes(bytes),
            line: line_after(line, byte),
            past: 0,
        };
    }

    // All bytes in their order; once a net past 100,000 has come nothing changes any more.
    fn feed(&mut self, bytes: &[u8])
        ensures { GoesTo self.old (fed bytes.now (state self.old)) self.new }
    {
        for byte in bytes {
            if self.place.past == 1 {
                return;
            }
            self.take(*byte);
        }
    }
}

// The most that the total at place i may be.
#[tactic(auto, unfolding(crate::specs::Stream::most_at))]
fn most_at(i: usize) -> u64
    ensures { result ≡ most_at i }
{
    if i == 0 { MOST_NETS } else { MOST_TOTAL }
}

// Refuses the first total that no stream has. Not one with `direction::check`, which says why.
fn check_totals(totals: &[u64; TOTALS]) -> Result<(), Refusal>
    ensures { result ≡ totals_reply totals.now }
{
    for (i, total) in totals.iter().enumerate() {
        if *total > most_at(i) {
            return Err(Refusal::OutOfRange(i as u64 + 1));
        }
    }
    Ok(())
}

// Whether no stream stands so in its line: a full stop at its start is a byte of the open net.
#[tactic(auto, unfolding(crate::specs::Stream::line_amiss))]
fn line_amiss(line: u64, bytes: u64) -> bool
    ensures { result ≡ line_amiss line bytes }
{
    line > 2 || line == 1 && bytes == 0
}

// Refuses a place that no stream has.
#[tactic(auto, unfolding(crate::specs::Stream::place_reply))]
fn check_place(p: Place) -> Result<(), Refusal>
    ensures { result ≡ place_reply p }
{
    if p.bytes > OVER {
        return Err(Refusal::OutOfRange(17));
    }
    if line_amiss(p.line, p.bytes) {
        return Err(Refusal::OutOfRange(18));
    }
    if p.past > 1 {
        return Err(Refusal::OutOfRange(19));
    }
    Ok(())
}

// Refuses a state that no stream has.
fn check(totals: &[u64; TOTALS], place: Place) -> Result<(), Refusal>
    ensures { result ≡ (totals_reply totals.now and_then place_reply place) }
{
    check_totals(totals)?;
    check_place(place)
}

// Begins a stream: no nets, and no bytes of an open one. The bytes that are lent stay as they are.
// Here and below three lists and no struct of them: C lends them one by one. Within, `Open` has them together.
pub fn begin(held: &[u8], totals: &mut [u64], place: &mut [u64]) -> Result<(), Refusal>
    ensures { Begins held.now totals.old place.old result totals.new place.new }
{
    held.as_array::<ROOM>().ok_or(Refusal::Count(0))?;
    let totals = totals.as_mut_array().ok_or(Refusal::Count(0))?;
    let place = place.as_mut_array().ok_or(Refusal::Count(0))?;
    totals::clear(totals);
    *place = [0; PLACES];
    Ok(())
}

// The next bytes of the archive, however many.
pub fn next(
    bytes: &[u8],
    held: &mut [u8],
    totals: &mut [u64],
    place: &mut [u64],
) -> Result<(), Refusal>
    ensures { Feeds bytes.now held.old totals.old place.old result
        held.new totals.new place.new }
{
    let held = held.as_mut_array().ok_or(Refusal::Count(0))?;
    let totals = totals.as_mut_array().ok_or(Refusal::Count(0))?;
    let lent = place.as_mut_array().ok_or(Refusal::Count(0))?;
    let place = Place::from(*lent);
    check(totals, place)?;
    let mut open = Open {
        held,
        totals,
        place,
    };
    open.feed(bytes);
    *lent = open.place.into();
    Ok(())
}

// The place after the end: bytes left are a net too, counted under 1. No method of `Open`: their bytes are not read, and `end` may not write to them.
#[tactic(auto, unfolding(crate::specs::Stream::ended_place, crate::specs::Stream::ended_totals), using(crate::proofs::Leading::past_told))]
fn finish(totals: &mut [u64; TOTALS], p: Place) -> Place
    requires { Roomy totals.old }
    ensures place { result ≡ ended_place totals.old p }
    ensures list { totals.new ≡ ended_totals totals.old p }
{
    if p.bytes == 0 || p.past == 1 {
        return Place {
            bytes: 0,
            line: 0,
            ..p
        };
    }
    let counted = archive::count(net::left(), totals);
    Place {
        bytes: 0,
        line: 0,
        past: u64::from(counted.is_err()),
    }
}

// Ends a stream: the totals are then the report of all bytes that came, of the first 100,000 nets where there are more (30).
pub fn end(held: &[u8], totals: &mut [u64], place: &mut [u64]) -> Result<(), Refusal>
    ensures { Ends held.now totals.old place.old result totals.new place.new }
{
    held.as_array::<ROOM>().ok_or(Refusal::Count(0))?;
    let totals = totals.as_mut_array().ok_or(Refusal::Count(0))?;
    let lent = place.as_mut_array().ok_or(Refusal::Count(0))?;
    let place = Place::from(*lent);
    check(totals, place)?;
    let ended = finish(totals, place);
    *lent = ended.into();
    if ended.past == 1 {
        return Err(TOO_MANY_NETS);
    }
    Ok(())
}
