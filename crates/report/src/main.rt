// The program of the season report. With no argument the archive is standard input; otherwise the files that the arguments name are one archive,
// joined byte by byte.
#![tactic(auto)]

use lister::{Kind, Program, archive};
use std::process::ExitCode;

fn main(rt: HostRuntime) -> ExitCode {
    let program = Program::new(&rt, b"report");
    if lister::arg_count(&rt) < 2 {
        program.print_input(Kind::Archives)
    } else {
        archive::report_arguments(program)
    }
}
