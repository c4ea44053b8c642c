// The answer: for each object the number of its pairs, and the mean of their directions.
// An object stands alone here and in `pair::base`, below 16: the bound of an index, of which a type would say no more.
ghost use Rattle.std.specs.Prelude.{◌≡◌, ◌<◌, length};
ghost use Rattle.station.specs.Means.{P, sum_of_e, direction, base, directions, pair_counts};

use crate::table::{PairAt, Table};
use crate::{OBJECTS, POSITIONS, pair};
use direction::CIRCLE;

// P: the number of positions that have a pair of the object.
fn pairs_of(table: &Table, object: usize) -> i64
    requires { object < 16 }
    ensures { result ≡ P table.now.count object }
{
    let mut pairs = 0;
    for position in 0..POSITIONS {
        if table.seen(PairAt { position, object }) {
            pairs += 1;
        }
    }
    pairs
}

// The sum of e over the positions that have a pair of the object.
fn sum_from_base(table: &Table, object: usize, b: i64) -> i64
    requires { (object < 16) × (b ≡ base table.now.count table.now.sums object) }
    ensures { result ≡ sum_of_e table.now.count table.now.sums object }
{
    let mut total: i64 = 0;
    for position in 0..POSITIONS {
        let at = PairAt { position, object };
        if table.seen(at) {
            total += pair::from_base(table, at, b);
        }
    }
    total
}

// The direction of an object, halves upward; 0 for an object never sighted, which is the rules' answer for it and no code.
fn direction_of(table: &Table, object: usize) -> i64
    requires { object < 16 }
    ensures { result ≡ direction table.now.count table.now.sums object }
{
    // The pairs first: the compiler then counts them once for this and for the list of pairs, and no base is looked for where there are none.
    let p = pairs_of(table, object);
    if p == 0 {
        return 0;
    }
    let Some(b) = pair::base(table, object) else {
        return 0;
    };
    let t = p * b + sum_from_base(table, object, b);
    exact::modulo(exact::floor(t + p, 2 * p), CIRCLE)
}

// Direction and pairs of all 16 objects, into the lent lists.
// Slices, whose lengths are asked, since `means` has tested the lists that it is lent. Turned into arrays by `try_from`, a refusal would no longer be known
// to leave them as they were (tried); arrays that are made here and copied take 160 bytes more of stack, above the limit in tests/office/stack.
pub fn write(table: &Table, direction: &mut [i64], pairs: &mut [i64])
    requires { (length direction.old ≡ 16) × (length pairs.old ≡ 16) }
    ensures { (direction.new ≡ directions table.now.count table.now.sums) × (pairs.new ≡ pair_counts table.now.count) }
{
    for object in 0..OBJECTS {
        direction[object] = direction_of(table, object);
        pairs[object] = pairs_of(table, object);
    }
}
