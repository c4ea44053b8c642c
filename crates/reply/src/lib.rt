// Why an input is refused, and what a caller is told of it in the rules' numbers. An operation answers a `Result` with a refusal for its error (specs/Reply.antt).
// Number and place stand in one definition each (specs/Numbers.antt); a `Verdict` has both (specs/Verdicts.antt).
#![tactic(auto)]

ghost use Rattle.std.specs.Prelude.{◌≡◌, Some};
ghost use Rattle.reply.specs.Numbers.{number_of, place_of};
ghost use Rattle.reply.specs.Verdicts.{refused, told, verdict_of};

use std::error::Error;
use std::fmt;

// Why an input is refused. Lines, ordinals, directions, rows and conditions count from 1; 0 is a place seen only at the end or from the length.
// It is a place of the rules like any other, so that a place is a number and no Option.
#[derive(Clone, Copy, Debug, PartialEq, Eq)]
pub enum Refusal {
    // A line is malformed, unknown or under the wrong heading; a term's kind doesn't fit: its line or ordinal.
    Malformed(u64),
    // Counts, lengths, a direction out of turn: its line, or 0.
    Count(u64),
    // A number out of range, or i = k where that is not allowed: its line, direction number or ordinal, or 0.
    OutOfRange(u64),
    // A coefficient beyond 2,000: its condition.
    Coefficient(u64),
    // A misclosure beyond its range: its condition.
    Misclosure(u64),
    // A weak row: the row.
    WeakRow(u64),
    // A correlate that is too large: its row.
    Correlate(u64),
    // A remainder that is too large: its condition.
    Remainder(u64),
    // A printed correction past one minute: its direction.
    Correction(u64),
    // No sightings, too many, or field lists of unequal length.
    Sightings,
    // A sighting's field out of range: its ordinal.
    Field(u64),
    // A face missing or given more than once, at a position and an object.
    Faces { position: u8, object: u8 },
    // A position without its initial, object 1.
    Initial { position: u8 },
    // The two faces too far apart, at a position and an object.
    FacesApart { position: u8, object: u8 },
    // A position's direction too far from the base, at a position and an object.
    Spread { position: u8, object: u8 },
    // A net past those that one report holds: its ordinal.
    Nets(u64),
    // A line of another office's listing is not the one due: its line.
    Sheet(u64),
    // Of the sightings that were to be rescued nothing is left.
    NothingLeft,
}

// What a caller is told: 0 and 0 where the input is accepted, else the rules' number and place of the refusal. Two numbers and no Result, since C reads them.
#[repr(C)]
#[derive(Clone, Copy, Debug, PartialEq, Eq)]
pub struct Verdict {
    pub number: u64,
    pub place: u64,
}

impl Refusal {
    // The rules' number.
    pub fn number(self) -> u64
        ensures { result ≡ number_of self }
    {
        match self {
            Refusal::Malformed(_) => 1,
            Refusal::Count(_) => 2,
            Refusal::OutOfRange(_) => 3,
            Refusal::Coefficient(_) => 4,
            Refusal::Misclosure(_) => 5,
            Refusal::WeakRow(_) => 6,
            Refusal::Correlate(_) => 7,
            Refusal::Remainder(_) => 8,
            Refusal::Correction(_) => 9,
            Refusal::Sightings => 21,
            Refusal::Field(_) => 22,
            Refusal::Faces { .. } => 23,
            Refusal::Initial { .. } => 24,
            Refusal::FacesApart { .. } => 25,
            Refusal::Spread { .. } => 26,
            Refusal::Nets(_) => 30,
            Refusal::Sheet(_) => 31,
            Refusal::NothingLeft => 32,
        }
    }

    // The rules' place.
    pub fn place(self) -> u64
        ensures { result ≡ place_of self }
    {
        match self {
            Refusal::Malformed(place)
            | Refusal::Count(place)
            | Refusal::OutOfRange(place)
            | Refusal::Coefficient(place)
            | Refusal::Misclosure(place)
            | Refusal::WeakRow(place)
            | Refusal::Correlate(place)
            | Refusal::Remainder(place)
            | Refusal::Correction(place)
            | Refusal::Field(place)
            | Refusal::Nets(place)
            | Refusal::Sheet(place) => place,
            Refusal::Faces { position, object }
            | Refusal::FacesApart { position, object }
            | Refusal::Spread { position, object } => 100 * u64::from(position) + u64::from(object),
            Refusal::Initial { position } => 100 * u64::from(position) + 1,
            Refusal::Sightings | Refusal::NothingLeft => 0,
        }
    }
}

impl fmt::Display for Refusal {
    ghost output = { λ why. Some (told why) };

    fn fmt<W: fmt::Write>(&self, f: &mut fmt::Formatter<W>) -> fmt::Result {
        write!(f, "refused {} {}", self.number(), self.place())
    }
}

impl Error for Refusal {}

// What a caller is told of a refusal.
impl From<Refusal> for Verdict {
    ghost from_gives = { λ why verdict. verdict ≡ refused why };

    fn from(why: Refusal) -> Verdict {
        Verdict {
            number: why.number(),
            place: why.place(),
        }
    }
}

// What a caller is told of a reply.
impl From<Result<(), Refusal>> for Verdict {
    ghost from_gives = { λ reply verdict. verdict ≡ verdict_of reply };

    fn from(reply: Result<(), Refusal>) -> Verdict {
        match reply {
            Ok(()) => Verdict {
                number: 0,
                place: 0,
            },
            Err(why) => Verdict::from(why),
        }
    }
}
