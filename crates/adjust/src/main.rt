// The adjusting program. With no argument the network file is standard input; otherwise each argument names a file, and the
// listings follow each other.
#![tactic(auto)]

use lister::{Files, Program};
use std::process::ExitCode;

fn main(rt: HostRuntime) -> ExitCode {
    Program::new(&rt, b"adjust").run(Files::Networks)
}
