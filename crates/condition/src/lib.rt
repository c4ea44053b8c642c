// One condition's lent terms: its coefficients and its misclosure. Both operations make the same checks, in checks.rt.
#![tactic(auto)]

ghost use Rattle.std.specs.Prelude.{◌≡◌, pos};
ghost use Rattle.condition.specs.Rules.{lent, target_fault};
ghost use Rattle.condition.specs.Promise.{Coefficients, Misclosed};
ghost use Rattle.condition.specs.Terms.{letter_of, suits, term_fault};

use crate::closing::Directions;
use crate::tally::{NUMBERS, Tally};
use crate::term::Term;
use reply::Refusal;

mod checks;
mod closing;
mod tally;
mod term;
mod terms;

// The kind of a condition. An angle condition has a target; a side condition has none. C lends a target beside each kind, so it stands beside the kind here too.
// It is matched where the rules differ, since specs/ says them case by case.
#[derive(Clone, Copy, Debug, PartialEq, Eq)]
pub enum Kind {
    Angle,
    Side,
}

// The coefficients of one condition, into the lent list a: of directions 1 to m, which are lent with their inverse weights q. The terms are lent
// by their fields, the kind of each as the code of its letter. A refusal is 1 to 3 of the checks, or 4, and leaves a as it was.
// The lists come side by side, as C lends them: a struct of all nine would be made here and in `misclosure`, to be taken apart in checks.rt.
// The limits of a coefficient and of w stand in `adjustment` too: each crate's rule in specs/ has them by itself.
pub fn coefficients(
    directions: &[i64],
    q: &[i64],
    kind: Kind,
    target: i64,
    kinds: &[i64],
    values: &[i64],
    d: &[i64],
    i: &[i64],
    k: &[i64],
    a: &mut [i64],
) -> Result<(), Refusal>
    ensures { Coefficients
        (lent directions.now q.now kind target
        kinds.now values.now d.now i.now k.now)
        a.old result a.new }
{
    if a.len() != directions.len() {
        return Err(Refusal::Count(0));
    }
    let terms = checks::all(directions, q, kind, target, kinds, values, d, i, k)?;
    let mut tally = Tally { sums: [0; NUMBERS] };
    tally.add_terms(terms);
    let found = tally.coefficients(directions.len());
    if exact::some_beyond(2000, found) {
        return Err(Refusal::Coefficient(1));
    }
    a.copy_from_slice(found);
    Ok(())
}

// The largest target of an angle condition.
const MOST_TARGET: i64 = 12 * direction::CIRCLE;

// Whether an angle condition's target is out of range.
pub fn target_fault(target: i64) -> bool
    ensures { result ≡ target_fault target }
{
    exact::outside(0, MOST_TARGET, target)
}

// Whether a term with this letter belongs under a kind of condition.
pub fn belongs(kind: Kind, letter: u8) -> bool
    ensures { result ≡ suits kind (letter_of (pos letter)) }
{
    term::suits(kind, term::read(i64::from(letter)))
}

// Whether a term with this letter, in a net of m directions, has a number out of range, or i = k where that is not allowed.
// The letter as the file has it: `Letter` is this crate's own, and a code that is none is no fault here.
#[tactic(auto, unfolding(crate::specs::Terms::term_fault))]
pub fn term_fault(m: i64, letter: u8, value: i64, d: i64, i: i64, k: i64) -> bool
    ensures { result ≡ term_fault m letter value d i k }
{
    let term = Term {
        letter: term::read(i64::from(letter)),
        value,
        d,
        i,
        k,
    };
    term.fault(m)
}

// The misclosure w of the same condition. A refusal is 1 to 3 of the checks, or 5.
pub fn misclosure(
    directions: &[i64],
    q: &[i64],
    kind: Kind,
    target: i64,
    kinds: &[i64],
    values: &[i64],
    d: &[i64],
    i: &[i64],
    k: &[i64],
) -> Result<i64, Refusal>
    ensures { Misclosed
        (lent directions.now q.now kind target
        kinds.now values.now d.now i.now k.now) result }
{
    let terms = checks::all(directions, q, kind, target, kinds, values, d, i, k)?;
    let directions = Directions { values: directions };
    let total = directions.total(terms);
    match kind {
        Kind::Angle => closing::judged(total - target),
        Kind::Side => closing::judged(100 * total),
    }
}
