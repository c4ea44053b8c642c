// The numbers of a line, one to a field, from left to right: each field is read from where the last one ended.
ghost use Rattle.std.specs.Prelude.{◌≡◌, ◌<◌, ◌≤◌, length, take};
ghost use Rattle.text.specs.Rows.{row_within, row_end, row_values, lettered_within, behind_end};

use crate::number::Read;
use crate::{LF, TAB, number};

// The numbers of the line at `start`, `count` of them with at most so many digits and no other field, into the first places of x.
// The start is asked to be in the text, as in number.rt.
// A count beside the list: one list serves lines of other counts, and a list with more places is promised to keep their number.
pub fn read(most: usize, file: &[u8], start: usize, count: usize, x: &mut [i64]) -> Option<usize>
    requires { (most ≤ 18) × (start ≤ length file.now) × (1 ≤ count) × (count ≤ length x.old) }
    ensures end { result ≡ row_end most file.now start count }
    ensures values { take count x.new ≡ row_values (row_within most file.now start count) (take count x.new) }
    ensures long { length x.new ≡ length x.old }
{
    let last = count - 1;
    let mut at = start;
    for i in 0..last {
        let Read { value, next } = number::read_to(most, file, at, TAB)?;
        x[i] = value;
        at = next;
    }
    let Read { value, next } = number::read_to(most, file, at, LF)?;
    x[last] = value;
    Some(next)
}

// The numbers of the line at `start` behind its letter, `count` of them with at most so many digits and no other field, into the first places of x.
pub fn read_behind(
    most: usize,
    file: &[u8],
    start: usize,
    letter: u8,
    count: usize,
    x: &mut [i64],
) -> Option<usize>
    requires { (most ≤ 18) × (start ≤ length file.now) × (10 < letter) × (1 ≤ count) × (count ≤ length x.old) }
    ensures end { result ≡ behind_end most file.now start letter count }
    ensures values { take count x.new ≡ row_values (lettered_within most file.now start letter count) (take count x.new) }
    ensures long { length x.new ≡ length x.old }
{
    if file.len() - start < 2 || file[start] != letter || file[start + 1] != TAB {
        return None;
    }
    read(most, file, start + 2, count, x)
}
