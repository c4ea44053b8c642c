// Lends the adjustment what no network file can say: lists of wrong lengths, numbers out of range that the file's own checks would meet first, and
// numbers past a file's eleven digits. It prints the reply and the six answer lists as they are left (they held 7 everywhere): of an accepted table
// the unrounded corrections with them, which no listing has. What it must print was worked out apart from it. What a file can say is run by `figures`.
#![tactic(auto)]

ghost use Rattle.std.specs.Prelude.{◌≤◌};

// The reply, and what the lent lists hold. Ten lists, as the operation takes them.
fn show(
    rt: &impl Print,
    directions: &[i64],
    q: &[i64],
    a: &[i64],
    w: &[i64],
    corrections: &mut [i64],
    printed: &mut [i64],
    adjusted: &mut [i64],
    correlates: &mut [i64],
    remainders: &mut [i64],
    misses: &mut [i64],
) {
    let reply = adjustment::adjust(
        directions,
        q,
        a,
        w,
        corrections,
        printed,
        adjusted,
        correlates,
        remainders,
        misses,
    );
    let _ = print!(rt; ": ");
    vectors::told(rt, reply);
    vectors::next_list(rt, corrections);
    vectors::next_list(rt, printed);
    vectors::next_list(rt, adjusted);
    vectors::next_list(rt, correlates);
    vectors::next_list(rt, remainders);
    vectors::next_list(rt, misses);
    let _ = println!(rt; ";");
}

// Lists of these lengths, v of the answer lists by direction and k of those by condition: every number is in range. A case is one line of numbers here
// and below, as it is printed.
fn lengths(rt: &impl Print, m: usize, q: usize, a: usize, w: usize, v: usize, k: usize)
    requires { (m ≤ 65) × ((q ≤ 65) × ((a ≤ 625) × ((w ≤ 25) × ((v ≤ 65) × (k ≤ 25))))) }
{
    let _ = print!(rt; "lengths {m} {q} {a} {w} {v} {k}");
    let directions = [0i64; 65];
    let weights = [1i64; 65];
    let coefficients = [100i64; 625];
    let misclosures = [700i64; 25];
    let mut corrections = [7i64; 65];
    let mut printed = [7i64; 65];
    let mut adjusted = [7i64; 65];
    let mut correlates = [7i64; 25];
    let mut remainders = [7i64; 25];
    let mut misses = [7i64; 25];
    show(
        rt,
        &directions[..m],
        &weights[..q],
        &coefficients[..a],
        &misclosures[..w],
        &mut corrections[..v],
        &mut printed[..v],
        &mut adjusted[..v],
        &mut correlates[..k],
        &mut remainders[..k],
        &mut misses[..k],
    );
}

// Two conditions in two directions: the directions, their q, the coefficients a and b of the conditions, their misclosures.
fn two(
    rt: &impl Print,
    d: i64,
    e: i64,
    p: i64,
    q: i64,
    a1: i64,
    a2: i64,
    b1: i64,
    b2: i64,
    w: i64,
    x: i64,
) {
    let _ = print!(rt; "two {d} {e} {p} {q} {a1} {a2} {b1} {b2} {w} {x}");
    let mut corrections = [7i64; 2];
    let mut printed = [7i64; 2];
    let mut adjusted = [7i64; 2];
    let mut correlates = [7i64; 2];
    let mut remainders = [7i64; 2];
    let mut misses = [7i64; 2];
    show(
        rt,
        &[d, e],
        &[p, q],
        &[a1, a2, b1, b2],
        &[w, x],
        &mut corrections,
        &mut printed,
        &mut adjusted,
        &mut correlates,
        &mut remainders,
        &mut misses,
    );
}

// Two directions with their q, in conditions that are in range.
fn directions(rt: &impl Print, d: i64, p: i64, e: i64, q: i64) {
    two(rt, d, e, p, q, 100, 0, 0, 100, 0, 0);
}

// Two conditions of one direction each, by coefficient and misclosure.
fn conditions(rt: &impl Print, a: i64, w: i64, b: i64, x: i64) {
    two(rt, 0, 0, 1, 1, a, 0, 0, b, w, x);
}

// 2: m from 1 to 64, n from 1 to 24 and not above m.
fn of_counts(rt: &impl Print) {
    lengths(rt, 0, 0, 0, 1, 0, 1);
    lengths(rt, 1, 1, 0, 0, 1, 0);
    lengths(rt, 1, 1, 2, 2, 1, 2);
    lengths(rt, 65, 65, 65, 1, 65, 1);
    lengths(rt, 25, 25, 625, 25, 25, 25);
}

// 2: each length that disagrees, after lengths that agree.
fn of_lengths(rt: &impl Print) {
    lengths(rt, 2, 2, 2, 1, 2, 1);
    lengths(rt, 2, 1, 2, 1, 2, 1);
    lengths(rt, 2, 3, 2, 1, 2, 1);
    lengths(rt, 2, 2, 1, 1, 2, 1);
    lengths(rt, 2, 2, 3, 1, 2, 1);
    lengths(rt, 2, 2, 2, 1, 1, 1);
    lengths(rt, 2, 2, 2, 1, 2, 2);
}

// 3 by direction number, before 4.
fn of_directions(rt: &impl Print) {
    directions(rt, -1, 1, 0, 1);
    directions(rt, 0, 1, 1296000000, 1);
    directions(rt, 0, 0, 0, 1);
    directions(rt, 0, 1, 0, 11);
    directions(rt, 0, i64::MIN, 0, 1);
    directions(rt, 0, 1, i64::MAX, 1);
    two(rt, 0, -1, 1, 1, 2001, 0, 0, 100, 0, 0);
}

// 4 and 5 by condition, 4 before 5 in one condition.
fn of_conditions(rt: &impl Print) {
    conditions(rt, 2001, 0, 100, 0);
    conditions(rt, 100, 0, -2001, 0);
    conditions(rt, i64::MIN, 0, 100, 0);
    conditions(rt, 100, 1000001, 100, 0);
    conditions(rt, 100, 0, 100, -1000001);
    conditions(rt, 100, i64::MIN, 100, 0);
    conditions(rt, 100, -1000001, 2001, 0);
    conditions(rt, 2001, 1000001, 100, 0);
}

// 6 to 9 leave the lists as they were. The second 6 has a pivot of 1 under an entry of 1,025, the second 7 has pivots of 1. The 8 is one only as each
// product is rounded by itself. The 9s have odd coefficients with odd misclosures, which no file has together: u is -60,001, then 60,001 beside a
// -60,000, which passes.
fn of_solutions(rt: &impl Print) {
    two(rt, 0, 0, 1, 1, 100, 100, 100, 100, 500, 500);
    two(rt, 0, 0, 1, 1, 1, 0, 32, 1, 0, 0);
    conditions(rt, 10, 1001, 10, 1000);
    conditions(rt, 1, 11, 1, 0);
    two(rt, 0, 0, 10, 10, 2000, 2000, 2000, 0, 4, 0);
    conditions(rt, 199, 119401, 100, 0);
    conditions(rt, 201, 120601, 199, -119401);
}

// Accepted: correlates and corrections at their limits, the second time over pivots of 1, halves of both signs, coefficients and misclosures that no
// file has together.
fn of_answers(rt: &impl Print) {
    conditions(rt, 10, 1000, 10, -1000);
    conditions(rt, 1, 10, 1, -10);
    conditions(rt, 201, 120601, 201, -120601);
    conditions(rt, 100, 5, 200, -5);
    two(rt, 10, 20, 3, 10, 100, -37, 55, 250, 1234, -777);
}

fn main(rt: HostRuntime) {
    of_counts(&rt);
    of_lengths(&rt);
    of_directions(&rt);
    of_conditions(&rt);
    of_solutions(&rt);
    of_answers(&rt);
}
