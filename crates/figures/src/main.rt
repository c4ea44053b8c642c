// Runs the network files of `data/`: for each file that `args` names, a line with its name and then its listing. `stdout` has what
// that must be, worked out by the independent program (see `answers`). The ten figures are theorems, in proofs/Ten.antt.
#![tactic(auto)]

use lister::{Files, Heading, Kind, Program};
use std::process::ExitCode;

fn main(rt: HostRuntime) -> ExitCode {
    Program::new(&rt, b"figures").print_arguments(Heading::Name, Kind::Whole(Files::Networks))
}
