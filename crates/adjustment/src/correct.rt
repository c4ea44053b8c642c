// What follows from a table and its correlates alone, whoever found them: corrections V, remainders R, printed corrections u, adjusted directions
// and printed remainders Q. R is formed as the sum of a*V, which equals the sum of N*K, so no entry of N is formed twice.
// The bounds of K, V and u, and the room of lists, stand in the clauses and in no type: docs/PROMISES.md names these functions, and a type would ask more.
ghost use Rattle.std.specs.Prelude.{◌≡◌, ℕ, ◌≤◌, ◌<◌, ltb, length, get_or, pos, nat_abs, ◌+ℤ◌, ◌*ℤ◌};
ghost use Rattle.exact.specs.Sum.{sum};
ghost use Rattle.exact.specs.Circle.{C, modulo};
ghost use Rattle.exact.specs.First.{first};
ghost use Rattle.exact.specs.Tabulate.{tabulate};
ghost use Rattle.doolittle.specs.Table.{at};
ghost use Rattle.doolittle.specs.Lent.{table_in};
ghost use Rattle.adjustment.specs.Corrections.{V_of};
ghost use Rattle.adjustment.specs.Demand.{seen};
ghost use Rattle.doolittle.specs.Inner.{HasSmall};
ghost use Rattle.adjustment.specs.Inner.{closing, rounding};

use crate::MINUTE;
use direction::CIRCLE;
use doolittle::SoundTable;
use doolittle::reduce::{plus_product, weighted};

// The sum of a(j,i)*K(j) over the conditions, at direction i.
// Not one with `sum_seen`: this goes down a column, that along a row, and each has a sum of its own in the rules.
#[tactic(auto, using(std::proofs::lemmas::Nat::rows))]
fn combined(table: SoundTable, k: &[i64], i: usize) -> i64
    requires direction { i < length table.q.now }
    requires correlates { HasSmall 100000000 k.now (length table.w.now) }
    ensures { result ≡ sum (length table.entry.w.now) (λ j. (table_in table.entry).a j i *ℤ at k.now j) }
{
    let m = table.q.len();
    let mut s = 0;
    for j in 0..table.w.len() {
        s = plus_product(s, table.a[j * m + i], k[j]);
    }
    s
}

// The corrections V of the correlates k, into a lent list.
pub fn corrections(table: SoundTable, k: &[i64], v: &mut [i64])
    requires correlates { HasSmall 100000000 k.now (length table.w.now) }
    requires room { length table.q.now ≤ length v.old }
    ensures { (i : ℕ) → i < length table.entry.q.now →
        get_or v.new i (pos 0) ≡ V_of (table_in table.entry) (at k.now) i }
{
    for (i, x) in table.q.iter().enumerate() {
        v[i] = weighted(*x, combined(table, k, i));
    }
}

// The sum of a(j,i)*x(i) over the directions, in condition j.
#[tactic(auto, using(std::proofs::lemmas::Nat::rows))]
fn sum_seen(table: SoundTable, x: &[i64], j: usize) -> i64
    requires condition { j < length table.w.now }
    requires numbers { HasSmall 48000000000000 x.now (length table.q.now) }
    ensures { result ≡ seen (table_in table.entry) j (at x.now) }
{
    let m = table.q.len();
    let mut s = 0;
    for i in 0..m {
        s = plus_product(s, table.a[j * m + i], x[i]);
    }
    s
}

// The remainders of the corrections V, up to the first beyond 50,000,000, into a lent list; which that is, or n.
// A count and no Option: so many conditions were found close, all n where none is beyond.
pub fn remainders(table: SoundTable, v: &[i64], r: &mut [i64]) -> usize
    requires corrections { HasSmall 48000000000000 v.now (length table.q.now) }
    requires room { length table.w.now ≤ length r.old }
    ensures value { result ≡ first (length table.entry.w.now)
        (λ j. ltb 50000000 (nat_abs (closing (table_in table.entry) (at v.now) j))) }
    ensures stored { (j : ℕ) → j < result →
        get_or r.new j (pos 0) ≡ closing (table_in table.entry) (at v.now) j }
{
    for (j, x) in table.w.iter().enumerate() {
        let z = sum_seen(table, v, j) + 10_000_000 * *x;
        if 50_000_000 < exact::magnitude(z) {
            return j;
        }
        r[j] = z;
    }
    table.w.len()
}

// u = nearest(V / 10^5), up to the first beyond 60,000, into a lent list; which that is, or how many there are: a count, as that of `remainders`.
pub fn print_corrections(v: &[i64], u: &mut [i64]) -> usize
    requires { length v.now ≤ length u.old }
    ensures value { result ≡ first (length v.now) (λ i. ltb 60000 (nat_abs (rounding (at v.now) i))) }
    ensures stored { (i : ℕ) → i < result → get_or u.new i (pos 0) ≡ rounding (at v.now) i }
{
    for (i, x) in v.iter().enumerate() {
        let y = exact::nearest(*x, 100_000);
        if MINUTE < exact::magnitude(y) {
            return i;
        }
        u[i] = y;
    }
    v.len()
}

// The adjusted directions, into a lent list.
pub fn adjust_directions(directions: &[i64], u: &[i64], adjusted: &mut [i64])
    requires directions { HasSmall 1296000000 directions.now (length adjusted.old) }
    requires corrections { HasSmall 60000 u.now (length adjusted.old) }
    ensures { adjusted.new ≡ tabulate (length adjusted.old)
        (λ i. modulo (get_or directions.now i (pos 0) +ℤ get_or u.now i (pos 0)) C) }
{
    for (i, x) in adjusted.iter_mut().enumerate() {
        *x = exact::modulo(directions[i] + u[i], CIRCLE);
    }
}

// The printed remainders Q, into a lent list.
pub fn print_remainders(table: SoundTable, u: &[i64], printed: &mut [i64])
    requires corrections { HasSmall 60000 u.now (length table.q.now) }
    requires long { length printed.old ≡ length table.w.now }
    ensures { printed.new ≡ tabulate (length table.entry.w.now)
        (λ j. pos 100000 *ℤ seen (table_in table.entry) j (at u.now) +ℤ pos 10000000 *ℤ get_or table.entry.w.now j (pos 0)) }
{
    for (j, x) in table.w.iter().enumerate() {
        printed[j] = 100_000 * sum_seen(table, u, j) + 10_000_000 * *x;
    }
}
