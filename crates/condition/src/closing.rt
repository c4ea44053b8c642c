// The misclosure: what the terms add to it, and its range.
ghost use Rattle.std.specs.Prelude.{◌≡◌, nat_abs, length};
ghost use Rattle.exact.specs.Sum.{sum};
ghost use Rattle.condition.specs.Terms.{direction_at, angle, part};
ghost use Rattle.reply.specs.Checks.{figure_of};
ghost use Rattle.condition.specs.Rules.{judged};
ghost use Rattle.condition.specs.Listed.{count, listed};
ghost use Rattle.condition.specs.Sound.{Number, Ends, Sound, AllSound};
ghost use Rattle.exact.specs.Within.{Within};

use crate::term::{Letter, Term};
use crate::terms::Terms;
use reply::Refusal;

// The directions 1 to m of a net, each within the circle. Nothing prints or compares them.
#[derive(Clone, Copy)]
pub struct Directions<'a> {
    pub values: &'a [i64],
    ghost small: { Within 1296000000 values.now },
}

impl<'a> Directions<'a> {
    // The value of a direction number: number 0 is the fixed initial, 1 to m stand in the list. No Option: the rules call the initial 0, and C lends it so.
    // What is asked of a number, of a term's ends and of a term is asked here and in tally.rt: a type for it would have m as a field, beside each term.
    // Numbers become places by `as`, here and in tally.rt: the clauses speak of their sizes.
    fn at(self, number: i64) -> i64
        requires { Number (length self.values.now) number }
        ensures { result ≡ direction_at self.entry.values.now (nat_abs number) }
    {
        if number == 0 {
            0
        } else {
            self.values[number as usize - 1]
        }
    }

    // The angle from direction i to direction k.
    #[tactic(auto, unfolding(crate::specs::Terms::angle))]
    fn angle(self, t: Term) -> i64
        requires { Ends (length self.values.now) t }
        ensures { result ≡ angle self.entry.values.now t }
    {
        exact::modulo(self.at(t.k) - self.at(t.i), direction::CIRCLE)
    }

    // What one term adds: an angle, a fixed angle, or a logarithm, on the right with its sign turned. No letter, which the checks leave nowhere, adds 0, as the
    // rules' `part` says: a checked term would be a second type.
    #[tactic(auto, unfolding(crate::specs::Terms::part))]
    fn part(self, t: Term) -> i64
        requires { Sound (length self.values.now) t }
        ensures { result ≡ part self.entry.values.now t }
    {
        match t.letter {
            Some(Letter::P) => self.angle(t),
            Some(Letter::F | Letter::L) => t.value,
            Some(Letter::R) => -t.value,
            None => 0,
        }
    }

    // What all terms add.
    #[tactic(auto, using(exact::proofs::Sum::sum_none))]
    pub fn total(self, terms: Terms) -> i64
        requires { AllSound (length self.values.now) (count terms) (listed terms) }
        ensures { result ≡ sum (count terms.entry) (λ j. part self.entry.values.now (listed terms.entry j)) }
    {
        let mut total = 0;
        for j in 0..terms.count() {
            total += self.part(terms.at(j));
        }
        total
    }
}

// The answer for a misclosure w, which is refused beyond its range.
pub fn judged(w: i64) -> Result<i64, Refusal>
    ensures { result ≡ figure_of (judged w) w }
{
    if 1_000_000 < exact::magnitude(w) {
        return Err(Refusal::Misclosure(1));
    }
    Ok(w)
}
