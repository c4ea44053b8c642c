// The lines that listings have in common, written into a lent buffer: a heading, a numbered line, and the REFUSED line.
ghost use Rattle.std.specs.Prelude.{◌+◌, ◌≤◌, length};
ghost use Rattle.text.specs.Written.{Puts};
ghost use Rattle.page.specs.Lines.{counts_end, heading_line, line_head, numbered_line, refused_line};

use reply::Verdict;
use text::LF;
use text::writer::Writer;

// Two counts, and the end of the line.
// Each function here asks room for just its own bytes: how much differs, so it is no fact of the writer's type.
#[tactic(auto, using(text::proofs::Putting::count_most))]
fn put_counts(w: &mut Writer, first: u64, second: u64)
    requires { w.old.at + 45 ≤ length w.old.out.now }
    ensures { Puts w.old (counts_end first second) 45 w.new }
{
    w.count(first);
    w.count(second);
    w.byte(LF);
}

// The first line of a listing: a word of three letters and two counts.
pub fn put_heading(w: &mut Writer, word: &[u8; 3], first: u64, second: u64)
    requires { w.old.at + 48 ≤ length w.old.out.now }
    ensures { Puts w.old (heading_line word.now first second) 48 w.new }
{
    w.word(word);
    put_counts(w, first, second);
}

// The head of a numbered line: its letter, a number and two signed numbers.
#[tactic(auto, using(text::proofs::Putting::count_most))]
pub fn put_head(w: &mut Writer, letter: u8, number: u64, first: i64, second: i64)
    requires { w.old.at + 67 ≤ length w.old.out.now }
    ensures { Puts w.old (line_head letter number first second) 67 w.new }
{
    w.byte(letter);
    w.count(number);
    w.signed(first);
    w.signed(second);
}

// A numbered line that ends with its head.
pub fn put_numbered(w: &mut Writer, letter: u8, number: u64, first: i64, second: i64)
    requires { w.old.at + 68 ≤ length w.old.out.now }
    ensures { Puts w.old (numbered_line letter number first second) 68 w.new }
{
    put_head(w, letter, number, first, second);
    w.byte(LF);
}

// REFUSED, number, place.
pub fn put_refused(w: &mut Writer, refusal: Verdict)
    requires { w.old.at + 52 ≤ length w.old.out.now }
    ensures { Puts w.old (refused_line refusal.number refusal.place) 52 w.new }
{
    w.word(b"REFUSED");
    put_counts(w, refusal.number, refusal.place);
}
