// The directions of a file whose scan is accepted, with their inverse weights: its first lines, up to the first that is no D line.
ghost use Rattle.std.specs.Prelude.{◌≡◌, ◌≤◌, length};
ghost use Rattle.text.specs.Lines.{lines_of};
ghost use Rattle.network.specs.Net.{net_from};
ghost use Rattle.network.specs.Turns.{turn_at};
ghost use Rattle.network.specs.Gathered.{Led, Directed};

use crate::record;
use crate::record::{Record, Run, Turn};

pub fn read(file: &[u8], directions: &mut [i64; 64], q: &mut [i64; 64]) -> Run
    requires { (length (net_from file.now 0).directions ≤ 64) × Led (lines_of file.now) }
    ensures directions { Directed file.now directions.new q.new result.count result.at }
    ensures after { result.turn ≡ turn_at file.now result.at }
{
    let mut m = 0;
    let mut start = 0;
    // A loop that a line ends: the scan has counted the lines, but answers only whether they are refused.
    // Not one with the other loops over lines: each takes up other fields, and a closure for that would be no plainer.
    loop {
        let turn = record::read(file, start);
        let Some(
            Turn {
                said: Record::Direction {
                    direction,
                    q: weight,
                    ..
                },
                next,
            },
        ) = turn
        else {
            return Run {
                count: m,
                at: start,
                turn,
            };
        };
        directions[m] = direction;
        q[m] = weight;
        m += 1;
        start = next;
    }
}
