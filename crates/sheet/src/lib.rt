// Another office's sheet: a listing, whoever made it, held against a network file. `check` says yes, no with the line of the first test that fails, or
// why there is nothing to check; `print` writes that down for programs.
#![tactic(auto)]

mod compare;
mod form;

ghost use Rattle.std.specs.Prelude.{◌+◌, ◌≤◌, length};
ghost use Rattle.text.specs.Written.{Wrote, Puts};
ghost use Rattle.sheet.specs.Promise.{Checks};
ghost use Rattle.sheet.specs.Answer.{answer_line, answer_in};

use doolittle::SoundTable;
use network::Lists;
use reply::{Refusal, Verdict};
use text::LF;
use text::writer::Writer;

// What is said of a sheet that could be checked. An enum of its own and no Result: a no is an answer and no error, which `?` must not pass on.
#[derive(Clone, Copy, Debug, PartialEq, Eq)]
pub enum Opinion {
    // It agrees with the net, line by line.
    Yes,
    // The line of the first test that fails.
    No(u64),
}

// Bytes that hold any answer.
pub const ANSWER: usize = 52;

// The opinion on a listing, for a network file; or why there is none: the net is refused, or the listing is malformed.
pub fn check(net: &[u8], listing: &[u8]) -> Result<Opinion, Refusal>
    ensures { Checks net.now listing.now result }
{
    let mut lists = Lists::new();
    let table = network::table(net, &mut lists)?;
    let mut x = [0; form::NUMBERS];
    let counts = form::read(listing, &mut x)?;
    // No From: that the table is sound is proved here, of a net that is accepted, and is no fact of a NetTable.
    Ok(compare::opinion(
        table.directions,
        SoundTable {
            q: table.q,
            a: table.a,
            w: table.w,
        },
        &x,
        counts,
    ))
}

// An opinion as a line, in room for the longest answer.
#[tactic(auto, using(text::proofs::Putting::count_most))]
fn put_answer(w: &mut Writer, opinion: Result<Opinion, Refusal>)
    requires { w.old.at + 52 ≤ length w.old.out.now }
    ensures { Puts w.old (answer_line opinion) 52 w.new }
{
    match opinion {
        Ok(Opinion::Yes) => w.word(b"YES\n"),
        Ok(Opinion::No(line)) => {
            w.word(b"NO");
            w.count(line);
            w.byte(LF);
        }
        Err(why) => page::lines::put_refused(w, Verdict::from(why)),
    }
}

// The answer to a net and a listing, as a line; how many bytes it has. A buffer of fewer than ANSWER bytes stays as it was, and the answer is 0:
// nothing is written, and that is how many bytes it has.
pub fn print(net: &[u8], listing: &[u8], out: &mut [u8]) -> usize
    ensures line { Wrote out.old 0 (answer_in net.now listing.now (length out.old)) out.new result }
    ensures within { result ≤ length out.old }
{
    if out.len() < ANSWER {
        return 0;
    }
    let mut w = Writer { out, at: 0 };
    put_answer(&mut w, check(net, listing));
    w.at
}
