// Runs the network files of `data/` that show the errors of a direction: for each file that `args` names, a line with its name and then its
// listing with its E line. `stdout` has what that must be, worked out by the independent program (see `answers`).
#![tactic(auto)]

use lister::{Files, Heading, Kind, Program};
use std::process::ExitCode;

fn main(rt: HostRuntime) -> ExitCode {
    Program::new(&rt, b"cards").print_arguments(
        Heading::Name,
        Kind::Whole(Files::NetworksWithErrors),
    )
}
