// The checks of the station's table, 23 to 26: each goes over the whole table before the next begins.
ghost use Rattle.std.specs.Prelude.{◌≡◌, ◌<◌};
ghost use Rattle.station.specs.Means.{faces_fault, initial_fault, apart_fault, spread_fault};
ghost use Rattle.station.specs.Replies.{fault, refusal, check_of, table_reply};

use crate::pair::{base, faces_differ, from_base};
use crate::table::{PairAt, Table};
use crate::{OBJECTS, PLACES};
use reply::Refusal;

// How far the faces of a pair may be apart, in 0.001 second, and how far g of a position may be from the base.
const MOST_APART: u64 = 60000;

const MOST_SPREAD: u64 = 120000;

// What a check over the table asks of each place. An enum and no closure: the rules say its fault and its refusal by its name, and the rescue's steps
// go by it too.
#[derive(Clone, Copy, Debug, PartialEq, Eq)]
pub enum Check {
    // 23: each object sighted in a position has one left and one right sighting there.
    PairsWhole,
    // 24: each position has object 1.
    InitialSeen,
    // 25: the two faces of a pair agree.
    FacesClose,
    // 26: the positions of an object agree.
    PositionsAgree,
}

// 23: the object was sighted in the position, but not once left and once right.
#[tactic(auto, unfolding(crate::specs::Means::faces_fault))]
fn faces_fault(table: &Table, at: PairAt) -> bool
    ensures { result ≡ faces_fault table.now.count at.position at.object }
{
    table.seen(at) && !(table.left_count(at) == 1 && table.right_count(at) == 1)
}

// 24: the object was sighted in the position, and object 1 was not.
#[tactic(auto, unfolding(crate::specs::Means::initial_fault))]
fn initial_fault(table: &Table, at: PairAt) -> bool
    ensures { result ≡ initial_fault table.now.count at.position at.object }
{
    table.seen(at) && !table.seen(at.initial())
}

// 25: the faces of the pair are over 60,000 apart.
#[tactic(auto, unfolding(crate::specs::Means::apart_fault))]
fn apart_fault(table: &Table, at: PairAt) -> bool
    ensures { result ≡ apart_fault table.now.count table.now.sums at.position at.object }
{
    table.seen(at) && MOST_APART < exact::magnitude(faces_differ(table, at))
}

// 26: the pair's doubled direction is over 120,000 from that of the object's lowest position.
#[tactic(auto, unfolding(crate::specs::Means::spread_fault))]
fn spread_fault(table: &Table, at: PairAt) -> bool
    ensures { result ≡ spread_fault table.now.count table.now.sums at.position at.object }
{
    table.seen(at)
        && base(table, at.object).is_some_and(|b| {
            MOST_SPREAD < exact::magnitude(from_base(table, at, b))
        })
}

// The fault of a check at the k-th place of its order. `k < 256`, here and below, is the bound of a place that a loop goes through.
#[tactic(auto, unfolding(crate::specs::Replies::fault))]
pub fn fault_at(check: Check, table: &Table, k: usize) -> bool
    requires { k < 256 }
    ensures { result ≡ fault check table.now.count table.now.sums k }
{
    let row = k / OBJECTS;
    let column = k % OBJECTS;
    let by_position = PairAt::new(row, column);
    let by_object = PairAt::new(column, row);
    match check {
        Check::PairsWhole => faces_fault(table, by_position),
        Check::InitialSeen => initial_fault(table, by_position),
        Check::FacesClose => apart_fault(table, by_position),
        Check::PositionsAgree => spread_fault(table, by_object),
    }
}

// What a check refuses at the k-th place of its order.
fn refusal(check: Check, k: usize) -> Refusal
    requires { k < 256 }
    ensures { result ≡ refusal check k }
{
    let row = (k / OBJECTS + 1) as u8;
    let column = (k % OBJECTS + 1) as u8;
    match check {
        Check::PairsWhole => Refusal::Faces {
            position: row,
            object: column,
        },
        Check::InitialSeen => Refusal::Initial { position: row },
        Check::FacesClose => Refusal::FacesApart {
            position: row,
            object: column,
        },
        Check::PositionsAgree => Refusal::Spread {
            position: column,
            object: row,
        },
    }
}

// One check, over the whole table.
fn make(check: Check, table: &Table) -> Result<(), Refusal>
    ensures { result ≡ check_of check table.now.count table.now.sums }
{
    match (0..PLACES).find(|k| fault_at(check, table, *k)) {
        Some(k) => Err(refusal(check, k)),
        None => Ok(()),
    }
}

// The checks of the table, in their order.
#[tactic(auto, unfolding(crate::specs::Replies::table_reply))]
pub fn make_all(table: &Table) -> Result<(), Refusal>
    ensures { result ≡ table_reply table.now.count table.now.sums }
{
    make(Check::PairsWhole, table)?;
    make(Check::InitialSeen, table)?;
    make(Check::FacesClose, table)?;
    make(Check::PositionsAgree, table)
}
