// Whole numbers, exactly: the steps on 64-bit numbers that every layer shares. Each says its value in ℤ; none can overflow.
// Some are std's own methods under the rules' names, which docs/PROMISES.md promises.
#![tactic(auto)]

ghost use Rattle.std.specs.Prelude.{◌≡◌, ltb, ℤ, pos, nat_abs, ◌<ℤ◌};
ghost use Rattle.std.specs.List.{list_any};
ghost use Rattle.exact.specs.Nearest.{nearest};
ghost use Rattle.exact.specs.Circle.{floor, modulo};
ghost use Rattle.exact.specs.Outside.{outside};

// The nearest whole number to n / d, halves away from zero.
// The remainder is compared with what it lacks to a whole d, so nothing is doubled and every numerator is taken.
pub fn nearest(n: i64, d: i64) -> i64
    requires { pos 0 <ℤ d }
    ensures { result ≡ nearest n d }
{
    let q = n / d;
    let r = n % d;
    if r < 0 {
        if d + r <= -r { q - 1 } else { q }
    } else {
        if d - r <= r { q + 1 } else { q }
    }
}

// The largest whole number that is not above n / d.
// It is std's `div_euclid`; the test stands here, so that a wrong version can turn it round and change nothing else.
pub fn floor(n: i64, d: i64) -> i64
    requires { pos 0 <ℤ d }
    ensures { result ≡ floor n d }
{
    let q = n / d;
    let below = n % d < 0;
    if below { q - 1 } else { q }
}

// What is left of z when whole m are taken away: from 0 to m - 1.
#[tactic(auto, using(crate::proofs::Circles::modulo_euclid))]
pub fn modulo(z: i64, m: i64) -> i64
    requires { pos 0 <ℤ m }
    ensures { result ≡ modulo z m }
{
    z.rem_euclid(m)
}

// The size of z, also of the least 64-bit number, which has no negative of its own.
pub fn magnitude(z: i64) -> u64
    ensures { result ≡ nat_abs z }
{
    z.unsigned_abs()
}

// z is not from low to high.
pub fn outside(low: i64, high: i64, z: i64) -> bool
    ensures { result ≡ outside low high z }
{
    !(low..=high).contains(&z)
}

// Some number of a list is larger than `most` in size.
pub fn some_beyond(most: u64, xs: &[i64]) -> bool
    ensures { result ≡ list_any (λ x. ltb most (nat_abs x)) xs.now }
{
    xs.iter().any(|x| most < magnitude(*x))
}
