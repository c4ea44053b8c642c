// The program that lists what a rescue drops of spoiled sighting books. With no argument the book is standard input; otherwise each argument
// names a file, and the lists follow each other.
#![tactic(auto)]

use lister::{Files, Program};
use std::process::ExitCode;

fn main(rt: HostRuntime) -> ExitCode {
    Program::new(&rt, b"dropped").run(Files::Dropped)
}
