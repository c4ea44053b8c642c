// The coefficients: a tally by direction number, 0 to 64, to which each term adds. Number 0 is the fixed initial, and what it gets is dropped.
// The tally stands once, with `coefficients`, and is lent to what is here: 65 numbers are too many to copy for each term.
ghost use Rattle.std.specs.Prelude.{◌≡◌, ℕ, ◌+◌, ◌<◌, ◌≤◌, pos, nat_abs, ◌+ℤ◌, get_or};
ghost use Rattle.exact.specs.Sum.{sum};
ghost use Rattle.exact.specs.Tabulate.{tabulate};
ghost use Rattle.condition.specs.Terms.{placed, turned, share};
ghost use Rattle.condition.specs.Listed.{count, listed};
ghost use Rattle.condition.specs.Sound.{Ends, Sound, AllSound};
ghost use Rattle.exact.specs.Within.{Within};

use crate::term::{Letter, Term};
use crate::terms::Terms;

// The direction numbers of the largest net.
pub const NUMBERS: usize = 65;

// What stands at each direction number. The bounds of its sums change from step to step, and are asked where they are needed. Nothing prints or compares it.
#[derive(Drop)]
pub struct Tally {
    pub sums: [i64; NUMBERS],
}

impl Tally {
    // x more at the number h.
    #[tactic(auto, using(crate::proofs::Shares::placed_more))]
    fn add(&mut self, h: usize, x: i64)
        requires place { h < 65 }
        requires small { (Within 50000 self.old.sums) × (nat_abs x ≤ 2000) }
        ensures { (n : ℕ) → get_or self.new.sums n (pos 0) ≡ get_or self.old.sums n (pos 0) +ℤ placed h x n }
    {
        self.sums[h] += x;
    }

    // An angle from i to k with the factor x: x less at i, x more at k.
    #[tactic(auto, using(crate::proofs::Shares::placed_size))]
    fn turn(&mut self, x: i64, t: Term)
        requires ends { Ends 64 t }
        requires small { (Within 48000 self.old.sums) × (nat_abs x ≤ 2000) }
        ensures { (n : ℕ) → get_or self.new.sums n (pos 0) ≡ get_or self.old.sums n (pos 0) +ℤ turned x t n }
    {
        self.add(t.i as usize, -x);
        self.add(t.k as usize, x);
    }

    // What one term adds. A fixed angle adds nothing, and its i and k are not read; nor does a term without a letter, as the rules' `share` says.
    #[tactic(auto, unfolding(crate::specs::Terms::share))]
    fn add_term(&mut self, t: Term)
        requires term { Sound 64 t }
        requires small { Within 48000 self.old.sums }
        ensures { (n : ℕ) → get_or self.new.sums n (pos 0) ≡ get_or self.old.sums n (pos 0) +ℤ share t n }
    {
        match t.letter {
            Some(Letter::P) => self.turn(100, t),
            Some(Letter::L) => self.turn(t.d, t),
            Some(Letter::R) => self.turn(-t.d, t),
            Some(Letter::F) | None => {}
        }
    }

    // All terms, into a tally of zeros.
    #[tactic(auto, using(exact::proofs::Sum::sum_none, exact::proofs::Sum::sum_more))]
    pub fn add_terms(&mut self, terms: Terms)
        requires zeros { (n : ℕ) → get_or self.old.sums n (pos 0) ≡ pos 0 }
        requires sound { AllSound 64 (count terms) (listed terms) }
        ensures { (n : ℕ) → get_or self.new.sums n (pos 0) ≡ sum (count terms.entry) (λ j. share (listed terms.entry j) n) }
    {
        for j in 0..terms.count() {
            self.add_term(terms.at(j));
        }
    }

    // The coefficients of directions 1 to m.
    pub fn coefficients(&self, m: usize) -> &[i64]
        requires { m ≤ 64 }
        ensures { result.now ≡ tabulate m (λ h. get_or self.now.sums (h + 1) (pos 0)) }
    {
        &self.sums[1..=m]
    }
}
