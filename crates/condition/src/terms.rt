// The terms of one condition as C lends them: by their fields, a list for each.
ghost use Rattle.std.specs.Prelude.{◌≡◌, ◌<◌};
ghost use Rattle.condition.specs.Sound.{Fields};

use crate::term;
use crate::term::Term;

// The field lists are of one length, which is that of `kinds`. Nothing prints or compares them.
#[derive(Clone, Copy)]
pub struct Terms<'a> {
    pub kinds: &'a [i64],
    pub values: &'a [i64],
    pub d: &'a [i64],
    pub i: &'a [i64],
    pub k: &'a [i64],
    ghost lists: { Fields kinds.now values.now d.now i.now k.now },
}

impl<'a> Terms<'a> {
    ghost use Rattle.condition.specs.Listed.{count, listed};

    // How many there are.
    pub fn count(self) -> usize
        ensures { result ≡ count self.entry }
    {
        self.kinds.len()
    }

    // The term at place j. By its place and no iterator: one over five lists would be an `impl` of our own, with laws that this one line does not need.
    pub fn at(self, j: usize) -> Term
        requires { j < count self }
        ensures { result ≡ listed self.entry j }
    {
        Term {
            letter: term::read(self.kinds[j]),
            value: self.values[j],
            d: self.d[j],
            i: self.i[j],
            k: self.k[j],
        }
    }
}
