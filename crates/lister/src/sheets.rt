// Other offices' sheets: a net and a listing, each read by its name, and the line that answers whether they agree.
ghost use Rattle.std.specs.Prelude.{◌≡◌, List, ℕ, ◌≤◌, length, take, IfOk};
ghost use Rattle.text.specs.Written.{Wrote};
ghost use Rattle.sheet.specs.Answer.{answer_in};
ghost use Rattle.std.specs.Process.{exit_status};
ghost use Rattle.lister.specs.Status.{Ends};

use crate::{Heading, Program, ROOM, Trouble};
use std::process::ExitCode;

// The file of that name, as much of it as the buffer holds. What cannot be opened or read is said.
fn read_named(program: Program, name: &[u8], file: &mut [u8]) -> Result<usize, Trouble>
    ensures { IfOk result (λ n. n ≤ length file.new) }
{
    let mut input = program.open(name)?;
    crate::read_whole(&mut input, file).map_err(|_| {
        program.say("read", name);
        Trouble::Unread
    })
}

// The answer to a net and to as much of a listing as has been read, all of it or at least its first 65,536 bytes, into a lent buffer; how many bytes it
// has. Whatever stands behind them, it is the answer to the whole listing.
fn print(net: &[u8], listing: &[u8], out: &mut [u8]) -> usize
    ensures line { (whole : List ℕ) (size : ℕ) → 65536 ≤ size → listing.now ≡ take size whole →
        Wrote out.old 0 (answer_in net.now whole (length out.old)) out.new result }
    ensures within { result ≤ length out.old }
{
    sheet::print(net, listing, out)
}

// Writes the answer.
fn write_answer(rt: &impl Print, net: &[u8], listing: &[u8]) -> Result<(), Trouble> {
    let mut out = [0u8; sheet::ANSWER];
    let n = print(net, listing, &mut out);
    crate::write(rt, &out[..n])
}

// The net and the sheet of these names. Where one of them cannot be read there is no answer.
fn check_named(program: Program, net: &[u8], sheet: &[u8]) -> Result<(), Trouble> {
    let mut file = [0u8; ROOM];
    let mut listing = [0u8; ROOM];
    let n = read_named(program, net, &mut file)?;
    let m = read_named(program, sheet, &mut listing)?;
    let outcome = write_answer(program.rt, &file[..n], &listing[..m]);
    if outcome == Err(Trouble::Unwritten) {
        program.say("write the answer to", sheet);
    }
    outcome
}

// The net and the sheet that two arguments name; the heading has the sheet's name.
pub fn check_pair(
    program: Program,
    heading: Heading,
    net: usize,
    sheet: usize,
) -> Result<(), Trouble> {
    crate::with_name(program.rt, net, |net| {
        crate::with_name(program.rt, sheet, |sheet| {
            crate::write_heading(program.rt, heading, sheet);
            check_named(program, net, sheet)
        })
    })
}

// The nets and sheets that the arguments name by turns, each pair under the sheet's name. A net at the end, with no sheet behind it, is left out.
// Where one answer could not be written, the next could not be either. Answers the program's exit status.
// A loop of its own beside that of `print_arguments`: a closure for what is done could be called with any number, and `i - 1` asks that it is not 0.
pub fn check_arguments(program: Program) -> ExitCode
    ensures { Ends (exit_status result) }
{
    for i in (2..crate::arg_count(program.rt)).step_by(2) {
        match check_pair(program, Heading::Name, i - 1, i) {
            Ok(()) | Err(Trouble::Unread) => {}
            outcome => return crate::status(outcome),
        }
    }
    ExitCode::SUCCESS
}
