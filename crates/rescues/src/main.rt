// Runs the sighting books of `data/` that are to be rescued: for each file that `args` names, a line with its name and then its kept lines; then again
// each with the list of its dropped sightings. `stdout` has what that must be, worked out by the independent program (see `answers`).
#![tactic(auto)]

use lister::{Files, Heading, Kind, Program};
use std::process::ExitCode;

fn main(rt: HostRuntime) -> ExitCode {
    let program = Program::new(&rt, b"rescues");
    program.print_arguments(Heading::Name, Kind::Whole(Files::Rescued));
    program.print_arguments(Heading::Name, Kind::Whole(Files::Dropped))
}
