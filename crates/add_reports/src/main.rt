// The program that adds up season reports: those that come on standard input, one after another.
#![tactic(auto)]

use lister::{Kind, Program};
use std::process::ExitCode;

fn main(rt: HostRuntime) -> ExitCode {
    Program::new(&rt, b"add_reports").print_input(Kind::Reports)
}
