// S, the sum of 2,520*u*u/q.
ghost use Rattle.std.specs.Prelude.{◌≡◌, ℕ, ◌*◌, ◌≤◌, ◌<◌, ◌/◌, length, pos, nat_abs};
ghost use Rattle.doolittle.specs.Table.{at};
ghost use Rattle.doolittle.specs.Inner.{Small};
ghost use Rattle.precision.specs.Errors.{S_of};

// 2,520*u*u/q.
fn weighted_square(q: i64, u: i64) -> u64
    requires { (0 < nat_abs q) × (nat_abs u ≤ 60000) }
    ensures { result ≡ 2520 * (nat_abs u * nat_abs u) / nat_abs q }
{
    let size = exact::magnitude(u);
    2520 * (size * size) / exact::magnitude(q)
}

// Their sum over all directions.
#[tactic(auto, using(crate::proofs::Squaring::S_none, crate::proofs::Squaring::S_more))]
pub fn sum(u: &[i64], q: &[i64]) -> u64
    requires u_len_bound { (length u.now ≤ 64) × (length q.now ≡ length u.now) }
    requires small { Small 60000 u.now (length u.now) × ((i : ℕ) → i < length u.now → 0 < nat_abs (at q.now i)) }
    ensures { pos result ≡ S_of u.now q.now }
{
    let mut s = 0;
    for (i, x) in u.iter().enumerate() {
        s += weighted_square(q[i], *x);
    }
    s
}
