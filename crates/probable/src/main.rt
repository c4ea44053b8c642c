// The program of a direction's probable error. With no argument the network file is standard input; otherwise each argument names a file,
// and the listings follow each other, each with its E line.
#![tactic(auto)]

use lister::{Files, Program};
use std::process::ExitCode;

fn main(rt: HostRuntime) -> ExitCode {
    Program::new(&rt, b"probable").run(Files::NetworksWithErrors)
}
