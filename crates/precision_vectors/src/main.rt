// Lends `precision::probable_error` what no network file can say: lists of unequal length, counts out of range, numbers out of range, and
// corrections that no adjustment gives. It prints the reply and both errors, 7 and 8 where it is refused. What it must print
// was worked out apart from it. What a file can say is run by `cards`.
#![tactic(auto)]

ghost use Rattle.std.specs.Prelude.{◌≤◌};

use precision::Errors;

// The reply, and both errors.
fn show(rt: &impl Print, u: &[i64], q: &[i64], n: usize) {
    let found = precision::probable_error(u, q, n);
    let _ = print!(rt; ": ");
    vectors::told(rt, found.map(|_| ()));
    let Errors { mean, probable } = found.unwrap_or(Errors {
        mean: 7,
        probable: 8,
    });
    let _ = println!(rt; "; {mean} {probable}");
}

// So many u and so many q, all alike, with n conditions.
fn alike(rt: &impl Print, us: usize, qs: usize, n: usize, u: i64, q: i64)
    requires { (us ≤ 65) × (qs ≤ 65) }
{
    let _ = print!(rt; "alike {us} {qs} {n} {u} {q}");
    let corrections = [u; 65];
    let weights = [q; 65];
    show(rt, &corrections[..us], &weights[..qs], n);
}

// 64 directions with n conditions: 63 with this correction and q = 1, and the last.
fn last(rt: &impl Print, n: usize, others: i64, u: i64, q: i64) {
    let _ = print!(rt; "last {n} {others} {u} {q}");
    let mut corrections = [others; 64];
    let mut weights = [1i64; 64];
    corrections[63] = u;
    weights[63] = q;
    show(rt, &corrections, &weights, n);
}

// Two directions with n conditions, each by u and q.
fn two(rt: &impl Print, n: usize, u: i64, p: i64, v: i64, q: i64) {
    let _ = print!(rt; "two {n} {u} {p} {v} {q}");
    show(rt, &[u, v], &[p, q], n);
}

// Six directions with n conditions, each by u and q: a case is one line of numbers, as it is printed. With six S comes to one below a square and to one above it; with five it cannot.
fn six(
    rt: &impl Print,
    n: usize,
    u1: i64,
    q1: i64,
    u2: i64,
    q2: i64,
    u3: i64,
    q3: i64,
    u4: i64,
    q4: i64,
    u5: i64,
    q5: i64,
    u6: i64,
    q6: i64,
) {
    let _ = print!(rt; "six {n} {u1} {q1} {u2} {q2} {u3} {q3} {u4} {q4} {u5} {q5} {u6} {q6}");
    show(rt, &[u1, u2, u3, u4, u5, u6], &[q1, q2, q3, q4, q5, q6], n);
}

// 2: m from 1 to 64, n from 1 to 24 and not above m.
fn of_counts(rt: &impl Print) {
    alike(rt, 0, 0, 1, 0, 1);
    alike(rt, 0, 0, 0, 0, 1);
    alike(rt, 1, 1, 0, 0, 1);
    alike(rt, 1, 1, 1, 0, 1);
    alike(rt, 1, 1, 2, 0, 1);
    alike(rt, 64, 64, 0, 1, 1);
    alike(rt, 64, 64, 1, 1, 1);
    alike(rt, 64, 64, 24, 1, 1);
    alike(rt, 64, 64, 25, 1, 1);
    alike(rt, 65, 65, 1, 1, 1);
    alike(rt, 23, 23, 24, 1, 1);
    alike(rt, 24, 24, 24, 1, 1);
    alike(rt, 64, 64, 4294967297, 1, 1);
    alike(rt, 64, 64, 18446744073709551615, 1, 1);
}

// 2: lengths that disagree; and before 3.
fn of_lengths(rt: &impl Print) {
    alike(rt, 1, 0, 1, 1, 1);
    alike(rt, 0, 1, 1, 1, 1);
    alike(rt, 2, 1, 1, 1, 1);
    alike(rt, 2, 3, 1, 1, 1);
    alike(rt, 64, 65, 1, 1, 1);
    alike(rt, 65, 64, 1, 1, 1);
    alike(rt, 2, 1, 1, 60001, 0);
    alike(rt, 2, 2, 3, 60001, 11);
    alike(rt, 2, 2, 0, i64::MIN, i64::MIN);
}

// 3: a correction past one minute, of either sign.
fn of_corrections(rt: &impl Print) {
    two(rt, 1, 60000, 1, -60000, 1);
    two(rt, 1, 60001, 1, 0, 1);
    two(rt, 1, 0, 1, 60001, 1);
    two(rt, 1, -60001, 1, 0, 1);
    two(rt, 1, 0, 1, -60001, 1);
    two(rt, 1, i64::MAX, 1, 0, 1);
    two(rt, 1, 0, 1, i64::MIN, 1);
    last(rt, 24, 60000, 60001, 1);
}

// 3: q from 1 to 10.
fn of_weights(rt: &impl Print) {
    two(rt, 1, 100, 1, 100, 10);
    two(rt, 1, 100, 0, 100, 1);
    two(rt, 1, 100, 1, 100, 0);
    two(rt, 1, 100, 11, 100, 1);
    two(rt, 1, 100, 1, 100, 11);
    two(rt, 1, 100, -1, 100, 1);
    two(rt, 1, 0, i64::MIN, 0, 1);
    two(rt, 1, 0, 1, 0, i64::MAX);
    last(rt, 24, 60000, 60000, 11);
}

// 3 goes by direction: u and q of the first before u and q of the second.
fn of_two_at_fault(rt: &impl Print) {
    two(rt, 2, 60001, 1, 60001, 1);
    two(rt, 2, 0, 1, 60001, 11);
    two(rt, 2, 60001, 11, 0, 1);
    two(rt, 2, 0, 0, 60001, 1);
    two(rt, 2, 60001, 1, 0, 0);
}

// S one below a square, at it and one above: with n = 1 (10,080 is 4 times 2,520), 2 and 3, and of large corrections.
fn of_squares(rt: &impl Print) {
    six(rt, 1, 1, 9, 1, 9, 3, 8, 4, 7, 1, 5, 1, 6);
    two(rt, 1, 2, 1, 0, 1);
    six(rt, 1, 1, 9, 1, 7, 2, 7, 2, 5, 3, 4, 1, 8);
    six(rt, 2, 1, 9, 1, 9, 1, 8, 3, 7, 1, 5, 1, 6);
    two(rt, 2, 1, 1, 1, 1);
    six(rt, 2, 1, 9, 1, 7, 2, 7, 2, 5, 1, 4, 1, 8);
    six(rt, 3, 1, 9, 1, 9, 1, 8, 4, 7, 1, 5, 1, 6);
    alike(rt, 3, 3, 3, 1, 1);
    six(rt, 3, 1, 9, 1, 7, 2, 7, 2, 5, 1, 4, 3, 8);
    six(
        rt, 1, 59704, 9, 59098, 9, 43656, 5, 53897, 6, 52399, 8, 59594, 7,
    );
    two(rt, 1, 40000, 1, 30000, 1);
    six(
        rt, 1, 55027, 9, 53551, 7, 43969, 7, 44958, 5, 50551, 4, 58965, 8,
    );
}

// Each q by itself: ten directions of that q, with corrections of 100 in size.
fn of_each_weight(rt: &impl Print) {
    alike(rt, 10, 10, 1, 100, 1);
    alike(rt, 10, 10, 1, 100, 2);
    alike(rt, 10, 10, 1, 100, 3);
    alike(rt, 10, 10, 1, 100, 4);
    alike(rt, 10, 10, 1, 100, 5);
    alike(rt, 10, 10, 1, 100, 6);
    alike(rt, 10, 10, 1, 100, 7);
    alike(rt, 10, 10, 1, 100, 8);
    alike(rt, 10, 10, 1, 100, 9);
    alike(rt, 10, 10, 1, -100, 10);
}

// The largest errors, the mean error at a power of two and below it, and probable errors at a half and beside it.
fn of_sizes(rt: &impl Print) {
    alike(rt, 64, 64, 1, 60000, 1);
    alike(rt, 64, 64, 1, -60000, 10);
    alike(rt, 64, 64, 24, 60000, 1);
    last(rt, 1, 60000, 59999, 1);
    last(rt, 1, 32768, 32768, 1);
    last(rt, 1, 32768, -32767, 1);
    two(rt, 1, 1000, 1, 0, 10);
    two(rt, 1, 59000, 1, 0, 10);
    two(rt, 1, 149, 1, 0, 1);
    two(rt, 1, 1851, 1, 0, 1);
}

fn main(rt: HostRuntime) {
    of_counts(&rt);
    of_lengths(&rt);
    of_corrections(&rt);
    of_weights(&rt);
    of_two_at_fault(&rt);
    of_squares(&rt);
    of_each_weight(&rt);
    of_sizes(&rt);
}
