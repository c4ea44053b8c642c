// Lends both operations on a condition what no network file can say: lists of wrong lengths, numbers past a file's eleven digits, codes that are no
// letter, fields that are not read, and refusals by direction and by term. It prints the coefficients' reply and the lent list as it is left (it held
// 7 everywhere), then the misclosure. What it must print was worked out apart from it. What a file can say is run by `figures`.
#![tactic(auto)]

ghost use Rattle.std.specs.Prelude.{◌≤◌};

use condition::Kind;

// The codes of the letters, said here apart from `condition`, whose reading of them is what is tested.
const P: i64 = b'P' as i64;

const F: i64 = b'F' as i64;

const L: i64 = b'L' as i64;

const R: i64 = b'R' as i64;

// The letter of a kind of condition. A match: what is printed is no part of `condition`, whose kinds have no text.
fn letter(kind: Kind) -> char {
    match kind {
        Kind::Angle => 'A',
        Kind::Side => 'S',
    }
}

// The rest of a line: what the two operations answer, and what the first leaves in a.
fn show(
    rt: &impl Print,
    directions: &[i64],
    q: &[i64],
    kind: Kind,
    target: i64,
    kinds: &[i64],
    values: &[i64],
    d: &[i64],
    i: &[i64],
    k: &[i64],
    a: &mut [i64],
) {
    let _ = print!(rt; ": ");
    vectors::told(
        rt,
        condition::coefficients(directions, q, kind, target, kinds, values, d, i, k, a),
    );
    let _ = print!(rt; ":");
    vectors::list(rt, a);
    let _ = match condition::misclosure(directions, q, kind, target, kinds, values, d, i, k) {
        Ok(w) => println!(rt; "; w {w}"),
        Err(why) => println!(rt; "; w {why}"),
    };
}

// Lists of these lengths, of fixed angles of 0: every number is in range. Here and below a case is one line of numbers, as it is printed: structs for
// the terms would make it many, and the operation takes lists that are apart.
fn counts(
    rt: &impl Print,
    m: usize,
    q: usize,
    n: usize,
    values: usize,
    d: usize,
    i: usize,
    k: usize,
    room: usize,
)
    requires m_bound { (m ≤ 65) × ((q ≤ 65) × (room ≤ 65)) }
    requires n_bound { (n ≤ 13) × ((values ≤ 13) × ((d ≤ 13) × ((i ≤ 13) × (k ≤ 13)))) }
{
    let _ = print!(rt; "counts {m} {q} {n} {values} {d} {i} {k} {room}");
    let directions = [0i64; 65];
    let weights = [1i64; 65];
    let kinds = [F; 13];
    let value_list = [0i64; 13];
    let d_list = [0i64; 13];
    let i_list = [0i64; 13];
    let k_list = [0i64; 13];
    let mut a = [7i64; 65];
    show(
        rt,
        &directions[..m],
        &weights[..q],
        Kind::Angle,
        0,
        &kinds[..n],
        &value_list[..values],
        &d_list[..d],
        &i_list[..i],
        &k_list[..k],
        &mut a[..room],
    );
}

// The angle P 0 2 where there are two directions, given with their q.
fn directions(rt: &impl Print, first: i64, first_q: i64, last: i64, last_q: i64) {
    let _ = print!(rt; "directions {first} {first_q} {last} {last_q}");
    let mut a = [7i64; 2];
    show(
        rt,
        &[first, last],
        &[first_q, last_q],
        Kind::Angle,
        5,
        &[P],
        &[0],
        &[0],
        &[0],
        &[2],
        &mut a,
    );
}

// A condition of one term among the three directions of the rules' figure 3.
fn one(rt: &impl Print, kind: Kind, target: i64, code: i64, value: i64, d: i64, i: i64, k: i64) {
    let letter = letter(kind);
    let _ = print!(rt; "one {letter} {target} {code} {value} {d} {i} {k}");
    let directions = [216_000_000, 216_003_000, 215_997_000];
    let q = [1, 10, 5];
    let mut a = [7i64; 3];
    show(
        rt,
        &directions,
        &q,
        kind,
        target,
        &[code],
        &[value],
        &[d],
        &[i],
        &[k],
        &mut a,
    );
}

// A condition of two terms among three directions, each term by its kind, value, d, i and k.
fn two(
    rt: &impl Print,
    kind: Kind,
    first: i64,
    v: i64,
    d: i64,
    i: i64,
    k: i64,
    last: i64,
    last_v: i64,
    last_d: i64,
    last_i: i64,
    last_k: i64,
) {
    let letter = letter(kind);
    let _ = print!(rt;
        "two {letter} {first} {v} {d} {i} {k} {last} {last_v} {last_d} {last_i} {last_k}"
    );
    let mut a = [7i64; 3];
    show(
        rt,
        &[5, 5, 5],
        &[1, 1, 1],
        kind,
        10,
        &[first, last],
        &[v, last_v],
        &[d, last_d],
        &[i, last_i],
        &[k, last_k],
        &mut a,
    );
}

// 2, place 0: m from 1 to 64, n from 1 to 12.
fn of_counts(rt: &impl Print) {
    counts(rt, 0, 0, 1, 1, 1, 1, 1, 0);
    counts(rt, 65, 65, 1, 1, 1, 1, 1, 65);
    counts(rt, 2, 2, 0, 0, 0, 0, 0, 2);
    counts(rt, 2, 2, 13, 13, 13, 13, 13, 2);
}

// 2, place 0: each length that disagrees.
fn of_lengths(rt: &impl Print) {
    counts(rt, 2, 1, 3, 3, 3, 3, 3, 2);
    counts(rt, 2, 3, 3, 3, 3, 3, 3, 2);
    counts(rt, 2, 2, 3, 2, 3, 3, 3, 2);
    counts(rt, 2, 2, 3, 4, 3, 3, 3, 2);
    counts(rt, 2, 2, 3, 3, 2, 3, 3, 2);
    counts(rt, 2, 2, 3, 3, 4, 3, 3, 2);
    counts(rt, 2, 2, 3, 3, 3, 2, 3, 2);
    counts(rt, 2, 2, 3, 3, 3, 4, 3, 2);
    counts(rt, 2, 2, 3, 3, 3, 3, 2, 2);
    counts(rt, 2, 2, 3, 3, 3, 3, 4, 2);
    counts(rt, 2, 2, 3, 3, 3, 3, 3, 1);
    counts(rt, 2, 2, 3, 3, 3, 3, 3, 3);
    counts(rt, 2, 2, 3, 3, 3, 3, 3, 0);
}

// 3 by direction number.
fn of_directions(rt: &impl Print) {
    directions(rt, -1, 1, 5, 1);
    directions(rt, 1296000000, 1, 5, 1);
    directions(rt, 5, 0, 5, 1);
    directions(rt, 5, 11, 5, 1);
    directions(rt, 5, 1, -1, 1);
    directions(rt, 5, 1, 1296000000, 1);
    directions(rt, 5, 1, 5, 0);
    directions(rt, 5, 1, 5, 11);
    directions(rt, 5, 1, i64::MIN, 1);
    directions(rt, 5, i64::MIN, 5, 1);
    directions(rt, i64::MAX, 1, 5, i64::MAX);
    directions(rt, 5, 11, -1, 1);
}

// 3, place 0: an angle condition's target; a side condition's is not read.
fn of_targets(rt: &impl Print) {
    one(rt, Kind::Angle, -1, F, 0, 0, 0, 0);
    one(rt, Kind::Angle, 15552000001, F, 0, 0, 0, 0);
    one(rt, Kind::Angle, i64::MIN, P, 0, 0, 0, 0);
    one(rt, Kind::Side, i64::MIN, L, 0, 5, 0, 1);
    one(rt, Kind::Side, -1, R, 0, 5, 0, 1);
    one(rt, Kind::Side, i64::MAX, L, 0, 0, 0, 0);
}

// 1: a kind that does not fit, before the same term's 3.
fn of_kinds(rt: &impl Print) {
    one(rt, Kind::Side, 0, P, 0, 0, 0, 1);
    one(rt, Kind::Side, 0, F, 0, 0, 0, 1);
    one(rt, Kind::Angle, 0, L, 0, 0, 0, 1);
    one(rt, Kind::Angle, 0, R, 0, 0, 0, 1);
    one(rt, Kind::Side, 0, P, -1, 5000, 9, 9);
    one(rt, Kind::Angle, 0, R, -1, 5000, 9, 9);
}

// 1: a code that is no letter of a term.
fn of_codes(rt: &impl Print) {
    one(rt, Kind::Angle, 0, 0, 0, 0, 0, 1);
    one(rt, Kind::Angle, 0, -80, 0, 0, 0, 1);
    one(rt, Kind::Angle, 0, 79, 0, 0, 0, 1);
    one(rt, Kind::Angle, 0, 81, 0, 0, 0, 1);
    one(rt, Kind::Angle, 0, 112, 0, 0, 0, 1);
    one(rt, Kind::Angle, 0, 4294967376, 0, 0, 0, 1);
    one(rt, Kind::Angle, 0, i64::MIN, 0, 0, 0, 1);
    one(rt, Kind::Angle, 0, i64::MAX, 0, 0, 0, 1);
}

// 3 in a term of each kind, by the least and the greatest number; and the fields that a kind does not use are not read.
fn of_terms(rt: &impl Print) {
    one(rt, Kind::Angle, 0, P, 0, 0, i64::MIN, 1);
    one(rt, Kind::Angle, 0, P, 0, 0, 1, i64::MIN);
    one(rt, Kind::Angle, 0, P, 0, 0, i64::MAX, i64::MAX);
    one(rt, Kind::Angle, 3000, P, i64::MIN, i64::MAX, 1, 2);
    one(rt, Kind::Angle, 0, F, 0, i64::MIN, i64::MAX, i64::MAX);
    one(rt, Kind::Angle, 0, F, i64::MIN, 0, 0, 0);
    one(rt, Kind::Angle, 0, F, i64::MAX, 0, 0, 0);
    one(rt, Kind::Side, 0, L, i64::MIN, 0, 0, 0);
    one(rt, Kind::Side, 0, L, 0, i64::MIN, 0, 1);
    one(rt, Kind::Side, 0, L, 0, i64::MIN, i64::MIN, i64::MIN);
}

// 1 and 3 by term; the earlier term speaks first.
fn of_places(rt: &impl Print) {
    two(rt, Kind::Angle, L, 0, 0, 0, 1, F, 5, 0, 0, 0);
    two(rt, Kind::Angle, F, 5, 0, 0, 0, L, 0, 0, 0, 1);
    two(rt, Kind::Angle, P, 0, 0, 1, 1, F, 5, 0, 0, 0);
    two(rt, Kind::Angle, F, 5, 0, 0, 0, P, 0, 0, 1, 1);
    two(rt, Kind::Angle, F, -1, 0, 0, 0, 77, 0, 0, 0, 0);
    two(rt, Kind::Angle, 77, 0, 0, 0, 0, F, -1, 0, 0, 0);
    two(rt, Kind::Side, L, 0, 0, 0, 0, F, 0, 0, 0, 1);
    two(rt, Kind::Side, L, 0, 0, 0, 0, R, 0, 2001, 0, 1);
}

// 4 is refused by the coefficients alone, and 5 by the misclosure alone.
fn of_either(rt: &impl Print) {
    two(rt, Kind::Side, L, 0, 2000, 0, 3, L, 0, 1, 0, 3);
    one(rt, Kind::Angle, 0, P, 0, 0, 0, 1);
}

fn main(rt: HostRuntime) {
    of_counts(&rt);
    of_lengths(&rt);
    of_directions(&rt);
    of_targets(&rt);
    of_kinds(&rt);
    of_codes(&rt);
    of_terms(&rt);
    of_places(&rt);
    of_either(&rt);
}
