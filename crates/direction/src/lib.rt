// The record of a direction: its value and its inverse weight q, and the check of a lent list of them.
#![tactic(auto)]

ghost use Rattle.std.specs.Prelude.{◌≡◌, length};
ghost use Rattle.reply.specs.Verdicts.{Replies};
ghost use Rattle.direction.specs.Ranges.{weight_out_of_range, out_of_range, directions_reply};

use reply::Refusal;

// The circle, in 0.001 second, and the last direction before it is full.
pub const CIRCLE: i64 = 1296000000;

pub const LAST: i64 = CIRCLE - 1;

// An inverse weight q lies from 1 to 10.
pub fn weight_out_of_range(q: i64) -> bool
    ensures { result ≡ weight_out_of_range q }
{
    exact::outside(1, 10, q)
}

// A direction lies from 0 to C - 1, and its q is in range.
pub fn out_of_range(direction: i64, q: i64) -> bool
    ensures { result ≡ out_of_range direction q }
{
    exact::outside(0, LAST, direction) || weight_out_of_range(q)
}

// Refuses the first direction that is out of range, by its number.
// The loops that refuse the first at fault differ by their test and by the refusal; one over closures would have both as parameters, for a loop of three lines.
// The lists lie side by side, as C lends them. By `zip` the loop would have a proof about three iterators, where it has one about a number.
pub fn check(directions: &[i64], q: &[i64]) -> Result<(), Refusal>
    requires { length q.now ≡ length directions.now }
    ensures { Replies (directions_reply directions.now q.now) result }
{
    for (i, direction) in directions.iter().enumerate() {
        if out_of_range(*direction, q[i]) {
            return Err(Refusal::OutOfRange(i as u64 + 1));
        }
    }
    Ok(())
}
