// The text of a season report, written into a lent buffer: its fourteen lines in their order, and a last one where a net past those that it holds came.
ghost use Rattle.std.specs.Prelude.{◌≡◌, ◌+◌, ◌<◌, ◌≤◌, length};
ghost use Rattle.text.specs.Written.{Wrote, Puts, in_order};
ghost use Rattle.totals.specs.Text.{head_of, place_of, pair_on, ending_of, line_of, last_line, report_in};

use crate::{TOO_MANY_NETS, TOTALS};
use reply::Verdict;
use text::LF;
use text::writer::Writer;

// How many lines every report has.
const LINES: usize = 14;

// Bytes that hold any report: 72 for each of its lines, and the last one.
pub const REPORT: usize = 1_060;

// What a line begins with: at most 27 bytes. The lines go by number, here and below: nine of the fourteen are alike.
// Each function here asks room for its own part of a line: how much differs, so it is no fact of the writer's type.
#[tactic(auto, unfolding(crate::specs::Text::head_of), using(text::proofs::Putting::count_most))]
pub fn put_head(w: &mut Writer, line: usize)
    requires { w.old.at + 27 ≤ length w.old.out.now }
    ensures { Puts w.old (head_of line) 27 w.new }
{
    match line {
        0 => w.word(b"NETS"),
        1 => w.word(b"ACCEPTED"),
        2..=10 => {
            w.word(b"COUNT");
            w.count(line as u64 - 1);
        }
        11 => w.word(b"A"),
        12 => w.word(b"S"),
        _ => w.word(b"SHARED"),
    }
}

// Where the line's number stands among the totals.
#[tactic(auto, unfolding(crate::specs::Text::place_of))]
pub fn place_of(line: usize) -> usize
    ensures place { result ≡ place_of line }
    ensures within { result < 16 }
{
    match line {
        0..=11 => line,
        12 => 13,
        _ => 15,
    }
}

// Whether the line has two numbers.
#[tactic(auto, unfolding(crate::specs::Text::pair_on))]
pub fn pair_on(line: usize) -> bool
    ensures { result ≡ pair_on line }
{
    matches!(line, 11 | 12)
}

// What stands behind the line's first number.
#[tactic(auto, unfolding(crate::specs::Text::ending_of), using(crate::proofs::Printing::pair_within, text::proofs::Putting::count_most))]
fn put_ending(w: &mut Writer, line: usize, totals: &[u64; TOTALS])
    requires { w.old.at + 23 ≤ length w.old.out.now }
    ensures { Puts w.old (ending_of totals.now line) 23 w.new }
{
    if pair_on(line) {
        w.count(totals[place_of(line) + 1]);
    }
    w.byte(LF);
}

// One line: at most 72 bytes.
#[tactic(auto, using(text::proofs::Putting::count_most))]
fn put_line(w: &mut Writer, line: usize, totals: &[u64; TOTALS])
    requires { w.old.at + 72 ≤ length w.old.out.now }
    ensures { Puts w.old (line_of totals.now line) 72 w.new }
{
    put_head(w, line);
    w.count(totals[place_of(line)]);
    put_ending(w, line, totals);
}

// The fourteen lines.
fn put_lines(w: &mut Writer, totals: &[u64; TOTALS])
    requires { w.old.at + 1008 ≤ length w.old.out.now }
    ensures { Puts w.old (in_order 14 (line_of totals.now)) 1008 w.new }
{
    for line in 0..LINES {
        put_line(w, line, totals);
    }
}

// The line that tells of a net past those that a report holds, where one came.
#[tactic(auto, unfolding(crate::specs::Text::last_line))]
fn put_last(w: &mut Writer, past: bool)
    requires { w.old.at + 52 ≤ length w.old.out.now }
    ensures { Puts w.old (last_line past) 52 w.new }
{
    if past {
        page::lines::put_refused(w, Verdict::from(TOO_MANY_NETS));
    }
}

// The report, from the start of the buffer; how many bytes it has. Where the totals are not sixteen, or the buffer is shorter than REPORT, it stays as it
// was, and the answer is 0: nothing is written, and that is how many bytes it has.
pub fn print(totals: &[u64], past: bool, out: &mut [u8]) -> usize
    ensures text { Wrote out.old 0 (report_in (length out.old) totals.now past) out.new result }
    ensures within { result ≤ length out.old }
{
    let Some(totals) = totals.as_array() else {
        return 0;
    };
    if out.len() < REPORT {
        return 0;
    }
    let mut w = Writer { out, at: 0 };
    put_lines(&mut w, totals);
    put_last(&mut w, past);
    w.at
}
