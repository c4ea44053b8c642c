// Input checks of a lent condition table, `check` all of them in their order: 2 for counts and lengths, 3 by direction, 4 and 5 by condition.
// (2 for counts is in `lib`, 3 in `direction`.)
ghost use Rattle.std.specs.Prelude.{◌≡◌, ℕ, ◌+◌, ◌<◌, ◌*◌, ◌≤◌, length, get_or, pos, IfOk, OnOk};
ghost use Rattle.reply.specs.Checks.{figure_reply};
ghost use Rattle.doolittle.specs.Table.{table_of};
ghost use Rattle.adjustment.specs.Inner.{Checked};
ghost use Rattle.adjustment.specs.Refusals.{differs, lengths_amiss, conditions_reply, input_reply};

use crate::counts_amiss;
use doolittle::SoundTable;
use reply::Refusal;

// The m coefficients of condition j.
pub(crate) fn row(a: &[i64], j: usize, m: usize) -> &[i64]
    requires { j * m + m ≤ length a.now }
    ensures long { length result.now ≡ m }
    ensures same { (i : ℕ) → i < m → get_or result.now i (pos 0) ≡ get_or a.now (j * m + i) (pos 0) }
{
    let start = j * m;
    &a[start..start + m]
}

// One of three lengths is not what it should be.
#[tactic(auto, unfolding(crate::specs::Refusals::differs))]
fn differ(count: usize, x: usize, y: usize, z: usize) -> bool
    ensures { result ≡ differs count x y z }
{
    x != count || y != count || z != count
}

// Some length disagrees with the counts: q and the coefficients, the three answers by direction (V, u, adjusted), the three by condition (K, R, Q).
// Lengths and no lists, since the answer lists are lent to be written; and no other crate tests these lists.
#[tactic(auto, unfolding(crate::specs::Refusals::lengths_amiss))]
fn lengths_amiss(
    m: usize,
    n: usize,
    q: usize,
    a: usize,
    v: usize,
    u: usize,
    adjusted: usize,
    k: usize,
    r: usize,
    s: usize,
) -> bool
    requires { (m ≤ 64) × (n ≤ 24) }
    ensures { result ≡ lengths_amiss m n q a v u adjusted k r s }
{
    q != m || a != n * m || differ(m, v, u, adjusted) || differ(n, k, r, s)
}

// Refuses the first condition with a coefficient or a misclosure beyond its range, the coefficients first.
fn check_conditions(q: &[i64], a: &[i64], w: &[i64]) -> Result<(), Refusal>
    requires { length a.now ≡ length w.now * length q.now }
    ensures { result ≡ conditions_reply (table_of q.now a.now w.now) }
{
    for (j, x) in w.iter().enumerate() {
        if exact::some_beyond(2000, row(a, j, q.len())) {
            return Err(Refusal::Coefficient(j as u64 + 1));
        }
        if 1_000_000 < exact::magnitude(*x) {
            return Err(Refusal::Misclosure(j as u64 + 1));
        }
    }
    Ok(())
}

// All input checks, in their order, and the table that they accept; the last six numbers are the lengths of the lent answer lists V, u, adjusted, K, R and Q.
#[tactic(auto, using(crate::proofs::Admitting::admits), unfolding(crate::specs::Refusals::input_reply))]
pub fn check<'a>(
    directions: &[i64],
    q: &'a [i64],
    a: &'a [i64],
    w: &'a [i64],
    v: usize,
    u: usize,
    adjusted: usize,
    k: usize,
    r: usize,
    s: usize,
) -> Result<SoundTable<'a>, Refusal>
    ensures answer { figure_reply result ≡ input_reply directions.now q.now a.now w.now v u adjusted k r s }
    ensures checked { OnOk result (Checked directions.now q.now a.now w.now v u adjusted k r s) }
    ensures lists { IfOk result (λ t. (t.q.now ≡ q.now) × (t.a.now ≡ a.now) × (t.w.now ≡ w.now)) }
{
    let m = directions.len();
    let n = w.len();
    if counts_amiss(m, n) || lengths_amiss(m, n, q.len(), a.len(), v, u, adjusted, k, r, s) {
        return Err(Refusal::Count(0));
    }
    direction::check(directions, q)?;
    check_conditions(q, a, w)?;
    Ok(SoundTable { q, a, w })
}
