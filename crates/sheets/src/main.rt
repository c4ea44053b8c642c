// Runs the sheets of `data/`: for each net and sheet that `args` names by turns, a line with the sheet's name and then the answer's line. `stdout` has
// what that must be, worked out by the independent program (see `answers`).
#![tactic(auto)]

use lister::{Program, sheets};
use std::process::ExitCode;

fn main(rt: HostRuntime) -> ExitCode {
    sheets::check_arguments(Program::new(&rt, b"sheets"))
}
