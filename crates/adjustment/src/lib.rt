// Adjustment of a condition table: the one public operation, `adjust`. It checks the lent table, solves it, and only then writes the lent answer lists.
// `adjust_own` writes into lists where a refusal may leave anything, so that no second set of lists is needed. `AnswerLists` are such lists for any table.
// Directions, q, a, w and the six answer lists come one by one, as C lends them; once checked, q, a and w are a `SoundTable`.
// `correct` stands by itself: what follows from a table that has passed its checks and any correlates within 10^8.
#![tactic(auto)]

pub mod correct;
mod lists;
mod table;

ghost use Rattle.std.specs.Prelude.{◌≡◌, ◌≤◌, length};
ghost use Rattle.doolittle.specs.Lent.{table_in};
ghost use Rattle.adjustment.specs.Refusals.{counts_amiss, solution_reply};
ghost use Rattle.adjustment.specs.Promise.{Adjusts, lists};
ghost use Rattle.adjustment.specs.Inner.{Solved, AdjustsOwn};

use doolittle::SoundTable;
pub use lists::{Adjusted, AnswerLists};
use reply::Refusal;

// The largest printed correction that is no blunder, one minute.
pub const MINUTE: u64 = 60000;

// Directions: 1 to 64. Conditions: 1 to 24, and not more than directions. The limits are this crate's own, as its rule has them.
#[tactic(auto, unfolding(crate::specs::Refusals::counts_amiss))]
pub fn counts_amiss(m: usize, n: usize) -> bool
    ensures { result ≡ counts_amiss m n }
{
    !(1..=64).contains(&m) || !(1..=24).contains(&n) || m < n
}

// 6 by row, 7 in back order, 8 by condition, 9 by direction; else the corrections, printed corrections, correlates and remainders are in the four lists.
// They come one by one, since `adjust` has them beside the lent lists, `adjust_own` among them.
fn solve(
    table: SoundTable,
    v: &mut [i64],
    u: &mut [i64],
    k: &mut [i64],
    r: &mut [i64],
) -> Result<(), Refusal>
    requires by_direction { (length table.q.now ≤ length v.old) × (length table.q.now ≤ length u.old) }
    requires by_condition { (length table.w.now ≤ length k.old) × (length table.w.now ≤ length r.old) }
    ensures value { result ≡ solution_reply (table_in table.entry) }
    ensures solved { result ≡ Ok tt → Solved (table_in table.entry) k.new v.new u.new r.new }
{
    let m = table.q.len();
    let n = table.w.len();
    let mut rows = [[0i64; 25]; 24];
    doolittle::reduce::reduce(table, &mut rows).map_err(|j| Refusal::WeakRow(j as u64 + 1))?;
    doolittle::correlate::correlates(&rows, n, k).map_err(|row| Refusal::Correlate(row as u64))?;
    correct::corrections(table, k, v);
    let close = correct::remainders(table, v, r);
    if close < n {
        return Err(Refusal::Remainder(close as u64 + 1));
    }
    let within = correct::print_corrections(&v[..m], u);
    if within < m {
        return Err(Refusal::Correction(within as u64 + 1));
    }
    Ok(())
}

// Adjusts a lent condition table: m directions with their inverse weights q, n rows of m coefficients, n misclosures. The answers V, u, adjusted
// directions, K, R and Q go into the lent lists; a refusal leaves them as they were, so the solution is worked out in lists of its own.
// Not one with `adjust_own`, which needs no second lists: its refusals leave anything (`AdjustsOwn`), these nothing (`Adjusts`).
pub fn adjust(
    directions: &[i64],
    q: &[i64],
    a: &[i64],
    w: &[i64],
    corrections: &mut [i64],
    printed: &mut [i64],
    adjusted: &mut [i64],
    correlates: &mut [i64],
    remainders: &mut [i64],
    misses: &mut [i64],
) -> Result<(), Refusal>
    ensures { Adjusts directions.now q.now a.now w.now
        (lists corrections.old printed.old adjusted.old correlates.old remainders.old misses.old)
        result
        (lists corrections.new printed.new adjusted.new correlates.new remainders.new misses.new) }
{
    let table = table::check(
        directions,
        q,
        a,
        w,
        corrections.len(),
        printed.len(),
        adjusted.len(),
        correlates.len(),
        remainders.len(),
        misses.len(),
    )?;
    let (m, n) = (q.len(), w.len());
    let mut v = [0; 64];
    let mut u = [0; 64];
    let mut k = [0; 24];
    let mut r = [0; 24];
    solve(table, &mut v, &mut u, &mut k, &mut r)?;
    corrections.copy_from_slice(&v[..m]);
    printed.copy_from_slice(&u[..m]);
    correlates.copy_from_slice(&k[..n]);
    remainders.copy_from_slice(&r[..n]);
    correct::adjust_directions(directions, printed, adjusted);
    correct::print_remainders(table, printed, misses);
    Ok(())
}

// The same into six lists where a refusal may leave anything: the solution is worked out in them.
pub fn adjust_own(
    directions: &[i64],
    q: &[i64],
    a: &[i64],
    w: &[i64],
    v: &mut [i64],
    u: &mut [i64],
    adjusted: &mut [i64],
    k: &mut [i64],
    r: &mut [i64],
    misses: &mut [i64],
) -> Result<(), Refusal>
    ensures { AdjustsOwn directions.now q.now a.now w.now
        (lists v.old u.old adjusted.old k.old r.old misses.old)
        result
        (lists v.new u.new adjusted.new k.new r.new misses.new) }
{
    let table = table::check(
        directions,
        q,
        a,
        w,
        v.len(),
        u.len(),
        adjusted.len(),
        k.len(),
        r.len(),
        misses.len(),
    )?;
    solve(table, v, u, k, r)?;
    correct::adjust_directions(directions, u, adjusted);
    correct::print_remainders(table, u, misses);
    Ok(())
}
