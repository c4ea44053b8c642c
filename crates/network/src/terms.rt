// The terms of one condition, from the line after its C line on.
ghost use Rattle.std.specs.Prelude.{◌≡◌, ◌≤◌, length, drop};
ghost use Rattle.text.specs.Lines.{lines_of};
ghost use Rattle.network.specs.Net.{net_from};
ghost use Rattle.network.specs.Turns.{turn_at};
ghost use Rattle.network.specs.Gathered.{Body, Gathers};

use crate::record;
use crate::record::{Record, Run, Turn};

// Lists for the terms of a condition: their fields, as `condition` takes them. Arrays, of which the first places are used: no operation takes from the heap
// (docs/COSTS.md).
#[derive(Drop)]
pub struct Terms {
    pub kinds: [i64; 12],
    pub values: [i64; 12],
    pub d: [i64; 12],
    pub i: [i64; 12],
    pub k: [i64; 12],
}

// The terms that stand at `start`, up to the first line that is none, into the first places of the lists.
pub fn gather(file: &[u8], start: usize, terms: &mut Terms) -> Run
    requires { (start ≤ length file.now) × (length (net_from file.now start).pending.kinds ≤ 12) × Body (lines_of (drop start file.now)) }
    ensures terms { Gathers file.now start terms.new result.count result.at }
    ensures after { result.turn ≡ turn_at file.now result.at }
{
    let mut count = 0;
    let mut at = start;
    // A loop that a line ends: the scan has counted the lines, but answers only whether they are refused.
    loop {
        let turn = record::read(file, at);
        let Some(
            Turn {
                said: Record::Term {
                    letter,
                    value,
                    d,
                    i,
                    k,
                },
                next,
            },
        ) = turn
        else {
            return Run { count, at, turn };
        };
        terms.kinds[count] = i64::from(letter);
        terms.values[count] = value;
        terms.d[count] = d;
        terms.i[count] = i;
        terms.k[count] = k;
        count += 1;
        at = next;
    }
}
