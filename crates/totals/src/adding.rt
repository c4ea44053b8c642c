// The sum of reports that come one after another in a stream of bytes, in parts of any length: what has been read so far goes by value, and the line that
// is being read stands in a lent buffer.
ghost use Rattle.std.specs.Prelude.{◌≡◌, cond, false, [], ◌∷◌, ◌++◌, ◌+◌, ◌≤◌, length, Some};
ghost use Rattle.text.specs.Fields.{TAB};
ghost use Rattle.text.specs.Rows.{row_within};
ghost use Rattle.text.specs.Written.{Wrote};
ghost use Rattle.totals.specs.Text.{head_of};
ghost use Rattle.totals.specs.Adding.{entry_with, entry_of, entry_at, line_after, due_after, nets_after, counted_after, miscounted, past_after, passes, added, sum_after};
ghost use Rattle.totals.specs.Adding.{faulty, fault_in, entered, after_line, none_read, unfinished, answer_in, after_byte, after_bytes, stream_of};

use crate::{MOST_NETS, MOST_TOTAL, TOO_MANY_NETS, TOTALS, report};
use reply::{Refusal, Verdict};
use text::writer::Writer;
use text::{LF, TAB, find, row};

// Bytes for the line that is being read: the longest line of a report has 40 with its LF.
pub const HELD: usize = 64;

// The most digits of a number in a report.
const DIGITS: usize = 18;

// What is known of the reports read so far.
// The line due is a number and no enum: report.rt has its fourteen lines by number, nine of them alike.
#[derive(Clone, Copy, Debug, PartialEq, Eq)]
pub struct Tally {
    // Lines read, and the line of a report that is due, from 0.
    pub line: u64,
    pub due: usize,
    // The report being read: its nets, and how many of them its lines have counted so far.
    pub nets: u64,
    pub counted: u64,
    // The reports hold more than 100,000 nets together.
    pub past: bool,
    // The first line at fault.
    pub fault: Option<u64>,
    // The totals of all reports so far.
    pub sum: [u64; TOTALS],
}

// The same, and how many bytes of the next line the lent buffer holds.
// That they are no more than it has room for is asked where bytes come, and is none of the type: `end` takes any such value.
#[derive(Clone, Copy, Debug, PartialEq, Eq)]
pub struct Adding {
    pub length: usize,
    pub tally: Tally,
}

// The numbers of a line, which have no minus.
fn entry_with(x: i64, y: i64) -> Option<(u64, u64)>
    ensures { result ≡ entry_with x y }
{
    Some((u64::try_from(x).ok()?, u64::try_from(y).ok()?))
}

// The numbers that stand from a start on: two, or one, and 0 for the second.
// No Option for the second: the line due says whether there is one, and with an Option each step below would have to ask that both agree.
fn numbers_from(text: &[u8], start: usize, pair: bool) -> Option<(u64, u64)>
    requires { start ≤ length text.now }
    ensures { result ≡ entry_of (row_within 18 text.now start (cond pair 2 1)) }
{
    let mut x = [0i64; 2];
    if pair {
        row::read(DIGITS, text, start, 2, &mut x)?;
        entry_with(x[0], x[1])
    } else {
        row::read(DIGITS, text, start, 1, &mut x)?;
        entry_with(x[0], 0)
    }
}

// What the line due begins with, up to its first number, from the start of a lent buffer; how many bytes that is.
fn put_due(out: &mut [u8; 32], due: usize) -> usize
    ensures text { Wrote out.old 0 (head_of due ++ (TAB ∷ [])) out.new result }
    ensures within { result ≤ 32 }
{
    let mut w = Writer { out, at: 0 };
    report::put_head(&mut w, due);
    w.byte(TAB);
    w.at
}

// What the line says, if it is the one due: its one or two numbers.
fn entry_at(text: &[u8], due: usize) -> Option<(u64, u64)>
    ensures { result ≡ entry_at due text.now }
{
    let mut head = [0u8; 32];
    let start = put_due(&mut head, due);
    if find::begins(text, &head[..start]) {
        numbers_from(text, start, report::pair_on(due))
    } else {
        None
    }
}

// The number of the next line; it stops at 18 digits.
// This step and those below take what their rules in specs/Adding take: a whole Tally only where the rule has one, so that each says only what it reads.
#[tactic(auto, unfolding(crate::specs::Adding::line_after))]
fn line_after(line: u64) -> u64
    ensures { result ≡ line_after line }
{
    if line < MOST_TOTAL { line + 1 } else { line }
}

// The line that is due behind this one: behind the last of a report, the first of the next.
#[tactic(auto, unfolding(crate::specs::Adding::due_after))]
fn due_after(due: usize) -> usize
    ensures { result ≡ due_after due }
{
    if due < 13 { due + 1 } else { 0 }
}

// The nets of the report being read, once a line has been read: its first line says them.
#[tactic(auto, unfolding(crate::specs::Adding::nets_after))]
fn nets_after(due: usize, nets: u64, x: u64) -> u64
    ensures { result ≡ nets_after due nets x }
{
    if due == 0 { x } else { nets }
}

// How many nets the lines of the report have counted once a line has been read.
// It stops one past the most that a NETS line can say, so that the two differ whatever comes.
#[tactic(auto, unfolding(crate::specs::Adding::counted_after), using(crate::proofs::Promising::small_at))]
fn counted_after(due: usize, counted: u64, x: u64) -> u64
    ensures { result ≡ counted_after due counted x }
{
    match due {
        0 => 0,
        1..=10 if crate::too_large(1, counted, x) => MOST_TOTAL + 1,
        1..=10 => counted + x,
        _ => counted,
    }
}

// Whether the last COUNT line shows that the counts do not add up to the nets.
#[tactic(auto, unfolding(crate::specs::Adding::miscounted))]
fn miscounted(due: usize, nets: u64, counted: u64) -> bool
    ensures { result ≡ miscounted due nets counted }
{
    due == 10 && nets != counted
}

// Whether the reports hold too many nets once a line has been read.
#[tactic(auto, unfolding(crate::specs::Adding::past_after))]
fn past_after(due: usize, past: bool, nets: u64, x: u64) -> bool
    ensures { result ≡ past_after due past nets x }
{
    past || due == 0 && nets.saturating_add(x) > MOST_NETS
}

// Whether a number of the line makes a total pass 18 digits.
#[tactic(auto, unfolding(crate::specs::Adding::passes), using(crate::proofs::Printing::pair_within))]
fn passes(sum: [u64; TOTALS], due: usize, x: u64, y: u64) -> bool
    ensures { result ≡ passes sum due x y }
{
    let place = report::place_of(due);
    crate::too_large(place, sum[place], x)
        || report::pair_on(due) && crate::too_large(place + 1, sum[place + 1], y)
}

// The numbers of the line added to the totals of their places.
#[tactic(auto, unfolding(crate::specs::Adding::added), using(crate::proofs::Printing::pair_within, crate::proofs::Entering::fits, crate::proofs::Entering::second_fits))]
fn added(sum: [u64; TOTALS], due: usize, x: u64, y: u64) -> [u64; TOTALS]
    requires { passes sum due x y ≡ false }
    ensures { result ≡ added sum due x y }
{
    let place = report::place_of(due);
    let mut all = sum;
    all[place] = crate::joined(place, sum[place], x);
    if report::pair_on(due) {
        all[place + 1] = crate::joined(place + 1, sum[place + 1], y);
    }
    all
}

// Whether a line that was read is at fault all the same: the counts do not add up, or a total passes 18 digits.
#[tactic(auto, unfolding(crate::specs::Adding::fault_in))]
fn fault_in(t: Tally, past: bool, counted: u64, x: u64, y: u64) -> bool
    ensures { result ≡ fault_in t past counted x y }
{
    miscounted(t.due, t.nets, counted) || !past && passes(t.sum, t.due, x, y)
}

// The line that has been read is the first at fault.
#[tactic(auto, unfolding(crate::specs::Adding::faulty))]
fn faulty(t: Tally) -> Tally
    ensures { result ≡ faulty t }
{
    Tally {
        fault: Some(line_after(t.line)),
        ..t
    }
}

// The totals once a line has been read.
#[tactic(auto, unfolding(crate::specs::Adding::sum_after))]
fn sum_after(past: bool, sum: [u64; TOTALS], due: usize, x: u64, y: u64) -> [u64; TOTALS]
    requires { past ≡ false → passes sum due x y ≡ false }
    ensures { result ≡ sum_after past sum due x y }
{
    if past { sum } else { added(sum, due, x, y) }
}

// The numbers of the line that was due.
fn entered(t: Tally, x: u64, y: u64) -> Tally
    ensures { result ≡ entered t (Some (x, y)) }
{
    let past = past_after(t.due, t.past, t.sum[0], x);
    let counted = counted_after(t.due, t.counted, x);
    if fault_in(t, past, counted, x, y) {
        return faulty(t);
    }
    Tally {
        line: line_after(t.line),
        due: due_after(t.due),
        nets: nets_after(t.due, t.nets, x),
        counted,
        past,
        sum: sum_after(past, t.sum, t.due, x, y),
        ..t
    }
}

// What is known once a line has been read, with its LF if it is not too long. It is changed where it stands, here and below: by value, all of it would be
// copied at each line and at each byte.
#[tactic(auto, unfolding(crate::specs::Adding::after_line, crate::specs::Adding::entered))]
fn after_line(t: &mut Tally, text: &[u8])
    ensures { t.new ≡ after_line t.old text.now }
{
    if t.fault.is_some() {
        return;
    }
    *t = match entry_at(text, t.due) {
        Some((x, y)) => entered(*t, x, y),
        None => faulty(*t),
    };
}

// One byte more.
fn after_byte(b: u8, held: &mut [u8; HELD], a: &mut Adding)
    requires { a.old.length ≤ 64 }
    ensures stream { stream_of a.new held.new ≡ after_byte (stream_of a.old held.old) b }
    ensures within { a.new.length ≤ 64 }
{
    let mut length = a.length;
    if length < HELD {
        held[length] = b;
        length += 1;
    }
    if b == LF {
        after_line(&mut a.tally, &held[..length]);
        a.length = 0;
    } else {
        a.length = length;
    }
}

// Before the first byte.
#[tactic(auto, unfolding(crate::specs::Adding::none_read))]
pub fn begin() -> Adding
    ensures { result ≡ record { length = 0; tally = none_read } }
{
    Adding {
        length: 0,
        tally: Tally {
            line: 0,
            due: 0,
            nets: 0,
            counted: 0,
            past: false,
            fault: None,
            sum: [0; TOTALS],
        },
    }
}

// The next bytes of the stream, however many.
pub fn next(bytes: &[u8], held: &mut [u8; HELD], a: Adding) -> Adding
    requires { a.length ≤ 64 }
    ensures stream { stream_of result held.new ≡ after_bytes (stream_of a held.old) bytes.now }
    ensures within { result.length ≤ 64 }
{
    let mut after = a;
    for b in bytes {
        after_byte(*b, held, &mut after);
    }
    after
}

// Whether the text ends where a line is due, in one, or before any.
#[tactic(auto, unfolding(crate::specs::Adding::unfinished))]
fn unfinished(line: u64, due: usize, begun: usize) -> bool
    ensures { result ≡ unfinished line due begun }
{
    line == 0 || due != 0 || begun != 0
}

// The answer after the last byte, from the start of a lent buffer: the report of the sum, or a REFUSED line; how many bytes it has. A buffer shorter than
// REPORT stays as it was, and the answer is 0: nothing is written, and that is how many bytes it has.
pub fn end(a: Adding, out: &mut [u8]) -> usize
    ensures text { Wrote out.old 0 (answer_in (length out.old) a.tally a.length) out.new result }
    ensures within { result ≤ length out.old }
{
    if out.len() < report::REPORT {
        return 0;
    }
    let t = a.tally;
    if let Some(line) = t.fault {
        page::refused_line(Verdict::from(Refusal::Malformed(line)), out)
    } else if unfinished(t.line, t.due, a.length) {
        page::refused_line(Verdict::from(Refusal::Malformed(line_after(t.line))), out)
    } else if t.past {
        page::refused_line(Verdict::from(TOO_MANY_NETS), out)
    } else {
        report::print(&t.sum, false, out)
    }
}
