// The whole root of a mean error.
ghost use Rattle.std.specs.Prelude.{◌≡◌, ◌*◌, ◌≤◌, ◌<◌};
ghost use Rattle.precision.specs.Errors.{root};

// The largest whole e with e*e*c not above s, bit by bit from the highest. c is at most 2,520*24, and s below 2^38*c, so e has 19 bits, and there
// are 19 turns whatever s is.
pub fn root(c: u64, s: u64) -> u64
    requires { (c ≤ 60480) × (s < 274877906944 * c) }
    ensures value { result ≡ root c s }
    ensures upper_bound { result < 524288 }
{
    let mut e: u64 = 0;
    let mut bit: u64 = 19;
    // A loop and no `for`: the rules name a root search that yields its value by `break`.
    loop {
        if bit == 0 {
            break e;
        }
        bit -= 1;
        let next = e + (1 << bit);
        if next * next * c <= s {
            e = next;
        }
    }
}
