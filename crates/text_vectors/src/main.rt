// Runs the line reader and the numbers on chosen inputs and prints what they answer. What it must print was worked out apart from it.
#![tactic(auto)]

ghost use Rattle.std.specs.Prelude.{◌≤◌};

use text::line::LineStatus;
use text::{LF, MOST_DIGITS, line, number};

// A start's status and line.
fn show_line(rt: &impl Print, file: &[u8], start: usize) {
    let status = match line::line_status(file, start) {
        LineStatus::Whole => "line",
        LineStatus::NoneLeft => "none left",
        LineStatus::LfMissing => "LF missing",
    };
    let _ = print!(rt; "{start} {status} [");
    let _ = rt.write_all(line::line(file, start));
    let _ = println!(rt; "]");
}

// A line, and the number of so many digits at most that it is read as.
fn show(rt: &impl Print, most: usize, text: &[u8])
    requires { most ≤ 18 }
{
    let _ = print!(rt; "[");
    let _ = rt.write_all(line::line(text, 0));
    let _ = match number::read_to(most, text, 0, LF) {
        Some(read) => println!(rt; "] {}", read.value),
        None => println!(rt; "] malformed"),
    };
}

fn lines(rt: &impl Print) {
    for start in [0, 1, 2, 3, 4, 6, 7, 8, 9, 10, 4_000_000_000] {
        show_line(rt, b"ab\n\ncd\nef", start);
    }
    show_line(rt, b"", 0);
    show_line(rt, b"\n", 0);
    show_line(rt, b"\n", 1);
    show_line(rt, b"a\r\n", 0);
}

fn numbers(rt: &impl Print) {
    show(rt, MOST_DIGITS, b"0\n");
    show(rt, MOST_DIGITS, b"-0\n");
    show(rt, MOST_DIGITS, b"00\n");
    show(rt, MOST_DIGITS, b"1\n");
    show(rt, MOST_DIGITS, b"-1\n");
    show(rt, MOST_DIGITS, b"01\n");
    show(rt, MOST_DIGITS, b"-01\n");
    show(rt, MOST_DIGITS, b"\n");
    show(rt, MOST_DIGITS, b"-\n");
    show(rt, MOST_DIGITS, b"--1\n");
    show(rt, MOST_DIGITS, b"+1\n");
    show(rt, MOST_DIGITS, b"1 \n");
    show(rt, MOST_DIGITS, b"99999999999\n");
    show(rt, MOST_DIGITS, b"-99999999999\n");
    show(rt, MOST_DIGITS, b"100000000000\n");
    show(rt, MOST_DIGITS, b"10\n");
    show(rt, MOST_DIGITS, b"12x\n");
    show(rt, MOST_DIGITS, b"9:\n");
    show(rt, MOST_DIGITS, b"/9\n");
    show(rt, MOST_DIGITS, b"1\r\n");
    show(rt, MOST_DIGITS, b"1296000000\n");
    show(rt, 18, b"100000000000\n");
    show(rt, 18, b"999999999999999999\n");
    show(rt, 18, b"-999999999999999999\n");
    show(rt, 18, b"1000000000000000000\n");
    show(rt, 18, b"012345678901234567\n");
}

fn main(rt: HostRuntime) {
    lines(&rt);
    numbers(&rt);
}
