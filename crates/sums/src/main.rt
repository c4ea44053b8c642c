// Runs the files of reports in `data/`: for each file that `args` names, a line with its name and then the sum of its reports, or the line that
// refuses them. `stdout` has what that must be, worked out by the independent program (see `answers`).
#![tactic(auto)]

use lister::{Heading, Kind, Program};
use std::process::ExitCode;

fn main(rt: HostRuntime) -> ExitCode {
    Program::new(&rt, b"sums").print_arguments(Heading::Name, Kind::Reports)
}
