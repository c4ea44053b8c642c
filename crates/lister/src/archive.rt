// Season reports of archives, which are read in parts and may have any length: of an open file, or of all files that the arguments name, joined
// byte by byte. A file may end anywhere, also in a line.
ghost use Rattle.std.specs.Prelude.{length, eqb, ◌≡◌, ◌≤◌};
ghost use Rattle.reply.specs.Verdicts.{verdict_of};
ghost use Rattle.text.specs.Written.{Wrote};
ghost use Rattle.std.specs.Process.{exit_status};
ghost use Rattle.lister.specs.Ended.{ended_in};
ghost use Rattle.lister.specs.Status.{Ends};

use crate::{Program, Trouble};
use reply::Refusal;
use season::stream;
use std::io::Read;
use std::process::ExitCode;
use totals::{TOTALS, report};

// Whether a stream's end is refused for a net past those that a report holds.
fn past(reply: Result<(), Refusal>) -> bool
    ensures { result ≡ eqb (verdict_of reply).number 30 }
{
    matches!(reply, Err(Refusal::Nets(_)))
}

// An archive that is being read: the three lists in which its stream stands (`season::stream`). They are the program's own, so nothing is refused of them.
// Nothing compares or prints it, here and of `Reports`: it is a buffer.
#[derive(Drop)]
struct Archive {
    held: [u8; stream::ROOM],
    totals: [u64; TOTALS],
    place: [u64; stream::PLACES],
}

impl Archive {
    // Before the first byte.
    fn begin() -> Archive {
        let mut archive = Archive {
            held: [0; stream::ROOM],
            totals: [0; TOTALS],
            place: [0; stream::PLACES],
        };
        let _ = stream::begin(&archive.held, &mut archive.totals, &mut archive.place);
        archive
    }

    // The next bytes, however many.
    fn next(&mut self, bytes: &[u8]) {
        let _ = stream::next(bytes, &mut self.held, &mut self.totals, &mut self.place);
    }

    // All bytes of an open file, to its end.
    fn feed(&mut self, input: &mut impl Read) -> Result<(), Trouble> {
        crate::read_parts(input, |bytes| self.next(bytes))
    }

    // All bytes of the file of that name. Says so where it could not be read to its end.
    fn feed_named(&mut self, program: Program, name: &[u8]) -> Result<(), Trouble> {
        let mut file = program.open(name)?;
        let outcome = self.feed(&mut file);
        program.report(outcome, name);
        outcome
    }

    // The same of the file that argument i names.
    fn feed_argument(&mut self, program: Program, i: usize) -> Result<(), Trouble> {
        crate::with_name(program.rt, i, |name| self.feed_named(program, name))
    }

    // The same of all files that the arguments name, up to the first that cannot be read.
    fn feed_arguments(&mut self, program: Program) -> Result<(), Trouble> {
        for i in 1..crate::arg_count(program.rt) {
            self.feed_argument(program, i)?;
        }
        Ok(())
    }

    // Ends the stream, and prints its report into a lent buffer; how many bytes that has.
    fn print(&mut self, out: &mut [u8]) -> usize
        ensures report { Wrote out.old 0
            (ended_in (length out.old) self.old.held self.old.totals self.old.place) out.new result }
        ensures within { result ≤ length out.old }
    {
        let ended = stream::end(&self.held, &mut self.totals, &mut self.place);
        report::print(&self.totals, past(ended), out)
    }

    // Writes the report of what has come.
    fn write_report(&mut self, rt: &impl Print) -> Result<(), Trouble> {
        let mut out = [0u8; report::REPORT];
        let n = self.print(&mut out);
        crate::write(rt, &out[..n])
    }
}

// The report of an archive that is open. Not one with `sums::add_open` over a trait: each is three calls, and archives are joined as well.
pub fn report_open(rt: &impl Print, input: &mut impl Read) -> Result<(), Trouble> {
    let mut archive = Archive::begin();
    archive.feed(input)?;
    archive.write_report(rt)
}

// The one report of all archives that the arguments name. Where one of them cannot be read there is none. Answers the program's exit status.
pub fn report_arguments(program: Program) -> ExitCode
    ensures { Ends (exit_status result) }
{
    let mut archive = Archive::begin();
    if archive.feed_arguments(program).is_err() {
        return ExitCode::SUCCESS;
    }
    let outcome = archive.write_report(program.rt);
    program.report(outcome, b"the archives");
    crate::status(outcome)
}
