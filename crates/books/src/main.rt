// Runs the sighting books of `data/`: for each file that `args` names, a line with its name and then its listing. `stdout` has what
// that must be, worked out by the independent program (see `answers`).
#![tactic(auto)]

use lister::{Files, Heading, Kind, Program};
use std::process::ExitCode;

fn main(rt: HostRuntime) -> ExitCode {
    Program::new(&rt, b"books").print_arguments(Heading::Name, Kind::Whole(Files::Books))
}
