// What the programs that run vectors print with: lists of numbers, and replies. Nothing is said of a write that fails.
#![tactic(auto)]

use reply::Refusal;

// Numbers, each after a blank.
pub fn list(rt: &impl Print, xs: &[i64]) {
    for x in xs {
        let _ = print!(rt; " {x}");
    }
}

// A list behind others.
pub fn next_list(rt: &impl Print, xs: &[i64]) {
    let _ = print!(rt; ";");
    list(rt, xs);
}

// A reply: accepted, or the refusal with its number and its place.
pub fn told(rt: &impl Print, reply: Result<(), Refusal>) {
    let _ = match reply {
        Ok(()) => print!(rt; "accepted"),
        Err(why) => print!(rt; "{why}"),
    };
}
