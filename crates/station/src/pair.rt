// The figures of a pair, in the rules' letters: s, g, b and e.
ghost use Rattle.std.specs.Prelude.{◌≡◌, ◌<◌, ◌≤◌, pos, nat_abs, ◌<ℤ◌, MatchOption};
ghost use Rattle.station.specs.Means.{centred, s, g, lowest, base, e};

use crate::POSITIONS;
use crate::table::{PairAt, Table};
use direction::CIRCLE;

// Half of the circle, and its double.
const HALF_CIRCLE: i64 = CIRCLE / 2;

const DOUBLE_CIRCLE: i64 = 2 * CIRCLE;

// z brought by whole circles of twice the half into [-half, half).
fn centred(z: i64, half: i64) -> i64
    requires { (nat_abs z ≤ 2000000000000) × ((pos 0 <ℤ half) × (nat_abs half ≤ 1296000000)) }
    ensures { result ≡ centred z half }
{
    exact::modulo(z + half, 2 * half) - half
}

// s: how far the two faces of a pair are from half a circle apart.
pub fn faces_differ(table: &Table, at: PairAt) -> i64
    ensures { result ≡ s table.now.sums at.position at.object }
{
    centred(
        table.right_reading(at) - table.left_reading(at) - HALF_CIRCLE,
        HALF_CIRCLE,
    )
}

// g: twice the direction from the initial, by a pair.
fn doubled_direction(table: &Table, at: PairAt) -> i64
    ensures { result ≡ g table.now.sums at.position at.object }
{
    let initial = at.initial();
    let turned = 2 * (table.left_reading(at) - table.left_reading(initial));
    exact::modulo(
        turned + faces_differ(table, at) - faces_differ(table, initial),
        DOUBLE_CIRCLE,
    )
}

// b: g of the lowest position in which the object was sighted.
pub fn base(table: &Table, object: usize) -> Option<i64>
    requires { object < 16 }
    ensures { MatchOption result
        (16 ≤ lowest table.now.count object)
        (λ b. (lowest table.now.count object < 16) × (b ≡ base table.now.count table.now.sums object)) }
{
    (0..POSITIONS)
        .map(|position| PairAt::new(position, object))
        .find(|at| table.seen(*at))
        .map(|at| doubled_direction(table, at))
}

// e: how far g of a position is from the base b of its object.
pub fn from_base(table: &Table, at: PairAt, b: i64) -> i64
    requires { b ≡ base table.now.count table.now.sums at.object }
    ensures { result ≡ e table.now.count table.now.sums at.position at.object }
{
    centred(doubled_direction(table, at) - b, CIRCLE)
}
