// The program that rescues spoiled sighting books. With no argument the book is standard input; otherwise each argument names a file, and the
// lines that are kept of each follow each other.
#![tactic(auto)]

use lister::{Files, Program};
use std::process::ExitCode;

fn main(rt: HostRuntime) -> ExitCode {
    Program::new(&rt, b"rescue").run(Files::Rescued)
}
