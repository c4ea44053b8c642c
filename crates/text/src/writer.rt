// Bytes, numbers in decimal and fields, written into a lent buffer one after another.
ghost use Rattle.std.specs.Prelude.{[], ◌∷◌, ◌+◌, ◌≤◌, length};
ghost use Rattle.text.specs.Decimal.{digits_of, written};
ghost use Rattle.text.specs.Written.{signed_field, count_field, Puts};

use crate::TAB;

// A lent buffer, and the place in it where the next byte goes. Nothing compares or prints it.
// Each method asks room for its own bytes: a fact of the type would ask the most of every call.
#[derive(Drop)]
pub struct Writer<'a> {
    pub out: &'a mut [u8],
    pub at: usize,
}

impl<'a> Writer<'a> {
    // One byte.
    pub fn byte(&mut self, b: u8)
        requires { self.old.at + 1 ≤ length self.old.out.now }
        ensures { Puts self.old (b ∷ []) 1 self.new }
    {
        self.out[self.at] = b;
        self.at += 1;
    }

    // A word as it stands, of any bytes. Byte by byte: std's copy of a slice has the archive for C ask its system for memmove.
    pub fn word(&mut self, word: &[u8])
        requires { self.old.at + length word.now ≤ length self.old.out.now }
        ensures { Puts self.old word.now (length word.now) self.new }
    {
        let end = self.at + word.len();
        for (i, b) in word.iter().enumerate() {
            self.out[self.at + i] = *b;
        }
        self.at = end;
    }

    // The digits of n: at most 20 bytes. It asks for the room of just these. By hand and no `write!`: that answers a Result, which could only be thrown away
    // here, where the room is asked.
    #[tactic(auto, using(crate::proofs::Putting::digit_steps))]
    pub fn digits(&mut self, n: u64)
        requires { self.old.at + length (digits_of n) ≤ length self.old.out.now }
        ensures { Puts self.old (digits_of n) 20 self.new }
    {
        if n >= 10 {
            self.digits(n / 10);
        }
        self.byte(b'0' + (n % 10) as u8);
    }

    // The number z, below 0 with a minus: at most 21 bytes. It asks for the room of just these.
    #[tactic(auto, using(crate::proofs::Putting::signs))]
    pub fn number(&mut self, z: i64)
        requires { self.old.at + length (written z) ≤ length self.old.out.now }
        ensures { Puts self.old (written z) 21 self.new }
    {
        if z < 0 {
            self.byte(b'-');
        }
        self.digits(z.unsigned_abs());
    }

    // A tab and a signed number: at most 22 bytes.
    #[tactic(auto, using(crate::proofs::Putting::fields))]
    pub fn signed(&mut self, z: i64)
        requires { self.old.at + 22 ≤ length self.old.out.now }
        ensures { Puts self.old (signed_field z) 22 self.new }
    {
        self.byte(TAB);
        self.number(z);
    }

    // A tab and a count: at most 21 bytes. It asks for the room of n's own digits alone.
    #[tactic(auto, using(crate::proofs::Putting::fields))]
    pub fn count(&mut self, n: u64)
        requires { self.old.at + length (count_field n) ≤ length self.old.out.now }
        ensures { Puts self.old (count_field n) 21 self.new }
    {
        self.byte(TAB);
        self.digits(n);
    }
}
