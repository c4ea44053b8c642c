// What the listings of all files have in common: their lines, the REFUSED line of a refusal, and what is printed of a file once it has been listed.
#![tactic(auto)]

pub mod lines;

ghost use Rattle.std.specs.Prelude.{◌≤◌, length};
ghost use Rattle.text.specs.Written.{Wrote};
ghost use Rattle.page.specs.Page.{refused_line_in, Printed};

use reply::{Refusal, Verdict};
use text::writer::Writer;

// Bytes that hold any REFUSED line.
pub const REFUSED_LINE: usize = 52;

// The REFUSED line of a refusal, into a lent buffer; how many bytes it has. A buffer of fewer than REFUSED_LINE bytes stays as it was, and the answer is 0
// (and no Option, since C is told so).
pub fn refused_line(refusal: Verdict, out: &mut [u8]) -> usize
    ensures line { Wrote out.old 0 (refused_line_in refusal (length out.old)) out.new result }
    ensures within { result ≤ length out.old }
{
    if out.len() < REFUSED_LINE {
        return 0;
    }
    let mut w = Writer { out, at: 0 };
    lines::put_refused(&mut w, refusal);
    w.at
}

// What stands in the buffer once a file has been listed, with the length of its listing or its refusal: that listing, or the line of the refusal, written now;
// how many bytes it has.
pub fn print(listed: Result<usize, Refusal>, out: &mut [u8]) -> usize
    ensures { Printed out.old listed out.new result }
{
    match listed {
        Ok(length) => length,
        Err(why) => refused_line(Verdict::from(why), out),
    }
}
