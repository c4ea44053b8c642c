// The checks that both operations make, in the order of the rules.
ghost use Rattle.std.specs.Prelude.{◌≡◌};
ghost use Rattle.condition.specs.Rules.{lent, directions_miscounted, terms_miscounted, target_check, terms_check};
ghost use Rattle.condition.specs.Listed.{count, listed, Checked};

use crate::Kind;
use crate::terms::Terms;
use reply::Refusal;

// Whether there are too few or too many directions, or not as many q. The limits here, 64 and 12, are this crate's rule's own, as those in lib.rt are.
#[tactic(auto, unfolding(crate::specs::Rules::directions_miscounted))]
fn directions_miscounted(m: usize, q: usize) -> bool
    ensures { result ≡ directions_miscounted m q }
{
    m < 1 || 64 < m || q != m
}

// Whether there are too few or too many terms, or not as many of a field.
// One function for all tests of lengths would be no plainer: each names other lists and another refusal.
#[tactic(auto, unfolding(crate::specs::Rules::terms_miscounted))]
fn terms_miscounted(n: usize, values: usize, d: usize, i: usize, k: usize) -> bool
    ensures { result ≡ terms_miscounted n values d i k }
{
    n < 1 || 12 < n || values != n || d != n || i != n || k != n
}

// An angle condition's target. A side condition has none, and what is lent for it is not read.
fn target_check(kind: Kind, target: i64) -> Result<(), Refusal>
    ensures { result ≡ target_check kind target }
{
    match kind {
        Kind::Angle if crate::target_fault(target) => Err(Refusal::OutOfRange(0)),
        _ => Ok(()),
    }
}

// The terms in their order.
#[tactic(auto, using(crate::proofs::Turning::terms_none, crate::proofs::Turning::terms_more, crate::proofs::Turning::terms_stop))]
fn terms_check(kind: Kind, m: i64, terms: Terms) -> Result<(), Refusal>
    ensures { result ≡ terms_check kind m (count terms.entry) (listed terms.entry) }
{
    for j in 0..terms.count() {
        terms.at(j).check(kind, m, j as u64 + 1)?;
    }
    Ok(())
}

// All checks, in the order of the rules; and what they accept, the terms as one. Both operations make them, and these alone decide refusals 1 to 3.
// Inline, since its answer of 88 bytes would pass through memory, and an operation would take up to 96 bytes of stack more.
#[inline(always)]
#[tactic(auto, using(crate::proofs::Accepting::as_many_q, crate::proofs::Accepting::terms_counted), unfolding(crate::specs::Rules::checks))]
pub fn all<'a>(
    directions: &[i64],
    q: &[i64],
    kind: Kind,
    target: i64,
    kinds: &'a [i64],
    values: &'a [i64],
    d: &'a [i64],
    i: &'a [i64],
    k: &'a [i64],
) -> Result<Terms<'a>, Refusal>
    ensures { Checked
        (lent directions.now q.now kind target
        kinds.now values.now d.now i.now k.now) result }
{
    if directions_miscounted(directions.len(), q.len())
        || terms_miscounted(kinds.len(), values.len(), d.len(), i.len(), k.len())
    {
        return Err(Refusal::Count(0));
    }
    direction::check(directions, q)?;
    target_check(kind, target)?;
    let terms = Terms {
        kinds,
        values,
        d,
        i,
        k,
    };
    terms_check(kind, directions.len() as i64, terms)?;
    Ok(terms)
}
