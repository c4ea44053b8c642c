// The program that checks another office's sheet, `check` on the command line: two arguments, a net and a listing. (The crate has a longer name, since
// the toolchain has a library of that one.)
#![tactic(auto)]

use lister::{Heading, Program, sheets};
use std::process::ExitCode;

fn main(rt: HostRuntime) -> ExitCode {
    let program = Program::new(&rt, b"check");
    if lister::arg_count(&rt) == 3 {
        return lister::status(sheets::check_pair(program, Heading::Absent, 1, 2));
    }
    let _ = rt.stderr().write_all(b"check: too few names or too many; it is: check NET LISTING\n");
    ExitCode::SUCCESS
}
