// One term of a condition, and its checks.
ghost use Rattle.std.specs.Prelude.{◌≡◌, ◌&&◌, not};
ghost use Rattle.exact.specs.Same.{same};
ghost use Rattle.condition.specs.Terms.{letter_of, suits, astray, fixed_length, side_fault, fault};
ghost use Rattle.condition.specs.Rules.{term_check};

use crate::Kind;
use reply::Refusal;

// The codes of the letters by which C lends kinds of terms.
const P: i64 = b'P' as i64;

const F: i64 = b'F' as i64;

const L: i64 = b'L' as i64;

const R: i64 = b'R' as i64;

// The kind of a term, by its letter in the network file: an angle, a fixed angle, a left and a right side term.
#[derive(Clone, Copy, Debug, PartialEq, Eq)]
pub enum Letter {
    P,
    F,
    L,
    R,
}

// A term that has no letter suits no condition. All its numbers stand beside the letter, as they are lent, and not under each kind those that it uses:
// that the others change nothing is a theorem (`angle_unread`, `fixed_angle_unread`), and speaks of them.
#[derive(Clone, Copy, Debug, PartialEq, Eq)]
pub struct Term {
    pub letter: Option<Letter>,
    pub value: i64,
    pub d: i64,
    pub i: i64,
    pub k: i64,
}

// The kind of a term, by the code of its letter. A match and no TryFrom: a code that is no letter is no error, and None is what a term then has.
#[tactic(auto, unfolding(crate::specs::Terms::letter_of))]
pub fn read(code: i64) -> Option<Letter>
    ensures { result ≡ letter_of code }
{
    match code {
        P => Some(Letter::P),
        F => Some(Letter::F),
        L => Some(Letter::L),
        R => Some(Letter::R),
        _ => None,
    }
}

// Whether a kind of term belongs under a kind of condition.
pub fn suits(kind: Kind, letter: Option<Letter>) -> bool
    ensures { result ≡ suits kind letter }
{
    matches!(
        (kind, letter),
        (Kind::Angle, Some(Letter::P | Letter::F)) | (Kind::Side, Some(Letter::L | Letter::R))
    )
}

impl Term {
    // Whether i or k is no direction number, from 0 to m.
    fn astray(self, m: i64) -> bool
        ensures { result ≡ astray m self }
    {
        exact::outside(0, m, self.i) || exact::outside(0, m, self.k)
    }

    // Whether a term's i, k and d are those of a fixed length.
    #[tactic(auto, using(exact::proofs::Sameness::bits_test, exact::proofs::Sameness::bits_other))]
    fn fixed_length(self) -> bool
        ensures { result ≡ fixed_length self }
    {
        self.i == 0 && self.k == 0 && self.d == 0
    }

    // Whether i = k where it is no fixed length.
    #[tactic(auto, using(exact::proofs::Sameness::bits_same, exact::proofs::Sameness::bits_other))]
    fn no_angle(self) -> bool
        ensures { result ≡ (same self.i self.k && not (fixed_length self)) }
    {
        self.i == self.k && !self.fixed_length()
    }

    // Whether a side term has a number out of range, or i = k where it is no fixed length.
    fn side_fault(self, m: i64) -> bool
        ensures { result ≡ side_fault m self }
    {
        exact::outside(0, 200_000_000, self.value)
            || exact::outside(-2000, 2000, self.d)
            || self.astray(m)
            || self.no_angle()
    }

    // Whether a term has a number out of range, or i = k where that is not allowed. Only the fields of its kind are read.
    #[tactic(auto, using(exact::proofs::Sameness::bits_test))]
    pub fn fault(self, m: i64) -> bool
        ensures { result ≡ fault m self }
    {
        match self.letter {
            Some(Letter::P) => self.astray(m) || self.i == self.k,
            Some(Letter::F) => exact::outside(0, direction::LAST, self.value),
            Some(Letter::L | Letter::R) => self.side_fault(m),
            None => false,
        }
    }

    // The check of one term: its kind first, then its numbers.
    pub fn check(self, kind: Kind, m: i64, ordinal: u64) -> Result<(), Refusal>
        ensures { result ≡ term_check kind m ordinal self }
    {
        if !suits(kind, self.letter) {
            return Err(Refusal::Malformed(ordinal));
        }
        if self.fault(m) {
            return Err(Refusal::OutOfRange(ordinal));
        }
        Ok(())
    }
}
