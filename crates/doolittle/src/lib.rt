// The normal equations of a condition table and their Doolittle solution: the reduced rows, with their test, and the correlates.
#![tactic(auto)]

ghost use Rattle.doolittle.specs.Inner.{Sound};

pub mod correlate;
pub mod reduce;

// A condition table that has passed its input checks, in lent lists: the inverse weights q of m directions, n rows of m coefficients a, and n misclosures w.
// They lie side by side, as C lends them; nothing prints or compares them.
#[derive(Clone, Copy)]
pub struct SoundTable<'a> {
    pub q: &'a [i64],
    pub a: &'a [i64],
    pub w: &'a [i64],
    ghost sound: { Sound q.now a.now w.now },
}
