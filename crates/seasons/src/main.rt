// Runs the archives of `data/`: for each file that `args` names, a line with its name and then its season report. `stdout` has what that must be,
// worked out by the independent program (see `answers`).
#![tactic(auto)]

use lister::{Heading, Kind, Program};
use std::process::ExitCode;

fn main(rt: HostRuntime) -> ExitCode {
    Program::new(&rt, b"seasons").print_arguments(Heading::Name, Kind::Archives)
}
