// The program of station means. With no argument the sighting book is standard input; otherwise each argument names a file, and the
// listings follow each other.
#![tactic(auto)]

use lister::{Files, Program};
use std::process::ExitCode;

fn main(rt: HostRuntime) -> ExitCode {
    Program::new(&rt, b"means").run(Files::Books)
}
