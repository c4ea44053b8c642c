// The scan over a file's lines, with counters only: refusals 1 to 3.
ghost use Rattle.std.specs.Prelude.{◌≡◌, ◌≤◌, Some};
ghost use Rattle.reply.specs.Verdicts.{Replies};
ghost use Rattle.network.specs.Scan.{Low, belongs, out_of_turn, one_too_many, direction_reply, angles_reply, sides_reply, term_reply};
ghost use Rattle.network.specs.Scan.{line_reply, counted, end_fault, end_reply, scan_reply};

use crate::record;
use crate::record::{Record, Turn};
use condition::Kind;
use reply::Refusal;

// The most directions, conditions and terms of a condition. Each crate's rule in specs/ has its limits by itself, and these are that rule's.
const MOST_DIRECTIONS: u64 = 64;

const MOST_CONDITIONS: u64 = 24;

const MOST_TERMS: u64 = 12;

// What has been counted so far: directions, conditions, terms of the last condition, and its kind.
// No bound in the type: each line may count one more, and only the walk over a file knows that no more lines come than it has bytes.
// The line's place goes beside it, as in the rules: it is none of what is counted.
#[derive(Clone, Copy, Debug, PartialEq, Eq)]
pub struct Counts {
    pub m: u64,
    pub n: u64,
    pub terms: u64,
    pub heading: Option<Kind>,
}

// Whether a term belongs under a heading.
#[tactic(auto, unfolding(crate::specs::Scan::belongs), using(crate::proofs::Heading::belongs_some))]
fn belongs(heading: Option<Kind>, letter: u8) -> bool
    ensures { result ≡ belongs heading letter }
{
    heading.is_some_and(|kind| condition::belongs(kind, letter))
}

// Whether a D line after m others has another number than the next, or is one too many.
#[tactic(auto, unfolding(crate::specs::Scan::out_of_turn))]
fn out_of_turn(m: u64, number: i64) -> bool
    ensures { result ≡ out_of_turn m number }
{
    MOST_DIRECTIONS <= m || number != m as i64 + 1
}

// Whether a C line after n others is one too many, or shows that the condition before it has no terms.
#[tactic(auto, unfolding(crate::specs::Scan::one_too_many))]
fn one_too_many(n: u64, terms: u64) -> bool
    ensures { result ≡ one_too_many n terms }
{
    MOST_CONDITIONS <= n || (0 < n && terms == 0)
}

// Refusals 1 to 3 of a D line: it stands after a C line, its number is out of turn or one too many, its direction or its q is out of range.
#[tactic(auto, unfolding(crate::specs::Scan::direction_reply))]
fn direction_reply(
    place: u64,
    c: Counts,
    number: i64,
    direction: i64,
    q: i64,
) -> Result<(), Refusal>
    ensures { result ≡ direction_reply place c number direction q }
{
    if 0 < c.n {
        return Err(Refusal::Malformed(place));
    }
    if out_of_turn(c.m, number) {
        return Err(Refusal::Count(place));
    }
    if direction::out_of_range(direction, q) {
        return Err(Refusal::OutOfRange(place));
    }
    Ok(())
}

// Refusal 2 of a C line of a side condition.
#[tactic(auto, unfolding(crate::specs::Scan::sides_reply))]
fn sides_reply(place: u64, c: Counts) -> Result<(), Refusal>
    ensures { result ≡ sides_reply place c }
{
    if one_too_many(c.n, c.terms) {
        return Err(Refusal::Count(place));
    }
    Ok(())
}

// Refusals 2 and 3 of a C line of an angle condition: its target may be out of range.
#[tactic(auto, unfolding(crate::specs::Scan::angles_reply, crate::specs::Scan::sides_reply))]
fn angles_reply(place: u64, c: Counts, target: i64) -> Result<(), Refusal>
    ensures { result ≡ angles_reply place c target }
{
    sides_reply(place, c)?;
    if condition::target_fault(target) {
        return Err(Refusal::OutOfRange(place));
    }
    Ok(())
}

// Refusals 1 to 3 of a term: it stands under no heading or the wrong one, it is one too many, a field is out of range. The fields come one by one, as the rule has them.
#[tactic(auto, unfolding(crate::specs::Scan::term_reply))]
fn term_reply(
    place: u64,
    c: Counts,
    letter: u8,
    value: i64,
    d: i64,
    i: i64,
    k: i64,
) -> Result<(), Refusal>
    requires { c.m ≤ 65536 }
    ensures { result ≡ term_reply place c letter value d i k }
{
    if !belongs(c.heading, letter) {
        return Err(Refusal::Malformed(place));
    }
    if MOST_TERMS <= c.terms {
        return Err(Refusal::Count(place));
    }
    if condition::term_fault(c.m as i64, letter, value, d, i, k) {
        return Err(Refusal::OutOfRange(place));
    }
    Ok(())
}

// Refusals 1 to 3 of one line, by what it says.
#[tactic(auto, unfolding(crate::specs::Scan::line_reply))]
fn line_reply(place: u64, c: Counts, said: Record) -> Result<(), Refusal>
    requires { c.m ≤ 65536 }
    ensures { result ≡ line_reply place c (Some said) }
{
    match said {
        Record::Direction {
            number,
            direction,
            q,
        } => direction_reply(place, c, number, direction, q),
        Record::Angles { target } => angles_reply(place, c, target),
        Record::Sides => sides_reply(place, c),
        Record::Term {
            letter,
            value,
            d,
            i,
            k,
        } => term_reply(place, c, letter, value, d, i, k),
    }
}

// What has been counted after a line.
#[tactic(auto, unfolding(crate::specs::Scan::counted))]
fn counted(c: Counts, said: Record) -> Counts
    requires { Low c }
    ensures { result ≡ counted c (Some said) }
{
    match said {
        Record::Direction { .. } => Counts { m: c.m + 1, ..c },
        Record::Angles { .. } => Counts {
            n: c.n + 1,
            terms: 0,
            heading: Some(Kind::Angle),
            ..c
        },
        Record::Sides => Counts {
            n: c.n + 1,
            terms: 0,
            heading: Some(Kind::Side),
            ..c
        },
        Record::Term { .. } => Counts {
            terms: c.terms + 1,
            ..c
        },
    }
}

// Whether the counts at the end of the file are out of range, or the last condition has no terms.
#[tactic(auto, unfolding(crate::specs::Scan::end_fault))]
fn end_fault(c: Counts) -> bool
    ensures { result ≡ end_fault c }
{
    c.m == 0 || c.n == 0 || c.m < c.n || c.terms == 0
}

// Refusal 2 of the whole file, at its end.
#[tactic(auto, unfolding(crate::specs::Scan::end_reply))]
fn end_reply(c: Counts) -> Result<(), Refusal>
    ensures { result ≡ end_reply c }
{
    if end_fault(c) {
        return Err(Refusal::Count(0));
    }
    Ok(())
}

// Refusals 1 to 3 of a whole file: its length, then its lines in order, then the end.
#[tactic(auto, using(crate::proofs::Scanning::scan_answers), unfolding(crate::specs::Scan::scan_reply))]
pub fn scan(file: &[u8]) -> Result<(), Refusal>
    ensures { Replies (scan_reply file.now) result }
{
    if text::MOST_BYTES < file.len() {
        return Err(Refusal::Count(0));
    }
    let mut start: usize = 0;
    let mut place: u64 = 1;
    let mut counts = Counts {
        m: 0,
        n: 0,
        terms: 0,
        heading: None,
    };
    // A while loop: how far a line goes is known when it has been read.
    while start < file.len() {
        let Turn { said, next } = record::read(file, start).ok_or(Refusal::Malformed(place))?;
        line_reply(place, counts, said)?;
        counts = counted(counts, said);
        start = next;
        place += 1;
    }
    end_reply(counts)
}
