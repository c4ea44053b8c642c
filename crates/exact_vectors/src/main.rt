// Runs the steps of `exact` on chosen numbers and prints what they answer: halves of both signs, the largest numerators and divisors of the
// rules, the ends of the 64-bit range, figure 7's -12.5. What it must print was worked out apart from it.
#![tactic(auto)]

ghost use Rattle.std.specs.Prelude.{pos, ◌<ℤ◌};

// Four functions and none that takes the step as a closure: each step asks something else of its numbers, and the call that prints is all that they share.
fn nearest(rt: &impl Print, n: i64, d: i64)
    requires { pos 0 <ℤ d }
{
    let _ = println!(rt; "nearest {n} {d} = {}", exact::nearest(n, d));
}

fn floor(rt: &impl Print, n: i64, d: i64)
    requires { pos 0 <ℤ d }
{
    let _ = println!(rt; "floor {n} {d} = {}", exact::floor(n, d));
}

fn modulo(rt: &impl Print, z: i64, m: i64)
    requires { pos 0 <ℤ m }
{
    let _ = println!(rt; "modulo {z} {m} = {}", exact::modulo(z, m));
}

fn magnitude(rt: &impl Print, z: i64) {
    let _ = println!(rt; "magnitude {z} = {}", exact::magnitude(z));
}

// A call for each case, and no list of cases: what a call asks of its divisor is then seen where the divisor is written.
fn main(rt: HostRuntime) {
    nearest(&rt, 5, 2);
    nearest(&rt, -5, 2);
    nearest(&rt, 1, 2);
    nearest(&rt, -1, 2);
    nearest(&rt, 3, 2);
    nearest(&rt, -3, 2);
    nearest(&rt, 7, 3);
    nearest(&rt, -7, 3);
    nearest(&rt, 8, 3);
    nearest(&rt, -8, 3);
    nearest(&rt, 1, 3);
    nearest(&rt, -1, 3);
    nearest(&rt, 0, 1);
    nearest(&rt, 0, 2560000000);
    nearest(&rt, 6, 3);
    nearest(&rt, -6, 3);
    nearest(&rt, -125, 10);
    nearest(&rt, -2000000000, 160000000);
    nearest(&rt, 6200000000000000000, 1);
    nearest(&rt, -6200000000000000000, 1);
    nearest(&rt, 6200000000000000000, 2560000000);
    nearest(&rt, -6200000000000000000, 2560000000);
    nearest(&rt, 6199999998720000000, 2560000000);
    nearest(&rt, -6199999998720000000, 2560000000);
    nearest(&rt, 6199999998719999999, 2560000000);
    nearest(&rt, -6199999998719999999, 2560000000);
    nearest(&rt, 4000000000000000000, 1000000);
    nearest(&rt, 2560000000000500000, 1000000);
    nearest(&rt, -2560000000000500000, 1000000);
    nearest(&rt, 2560000000000499999, 1000000);
    nearest(&rt, 9223372036854775807, 1);
    nearest(&rt, -9223372036854775808, 1);
    nearest(&rt, 9223372036854775807, 2);
    nearest(&rt, -9223372036854775808, 2);
    nearest(&rt, 9223372036854775807, 9223372036854775807);
    nearest(&rt, -9223372036854775808, 9223372036854775807);
    nearest(&rt, 4611686018427387904, 9223372036854775807);
    nearest(&rt, 4611686018427387903, 9223372036854775807);

    floor(&rt, 7, 2);
    floor(&rt, -7, 2);
    floor(&rt, -1, 2);
    floor(&rt, 0, 4);
    floor(&rt, -3, 4);
    floor(&rt, -4, 4);
    floor(&rt, -5, 4);
    floor(&rt, 4, 4);
    floor(&rt, -9223372036854775808, 1);
    floor(&rt, 9223372036854775807, 32);

    modulo(&rt, 0, 1296000000);
    modulo(&rt, -1, 1296000000);
    modulo(&rt, 1296000000, 1296000000);
    modulo(&rt, -1296000000, 1296000000);
    modulo(&rt, 1295999999, 1296000000);
    modulo(&rt, -1295999999, 1296000000);
    modulo(&rt, -144010000, 1296000000);
    modulo(&rt, -9223372036854775808, 1296000000);

    magnitude(&rt, 0);
    magnitude(&rt, 1);
    magnitude(&rt, -1);
    magnitude(&rt, 2000);
    magnitude(&rt, -2001);
    magnitude(&rt, 9223372036854775807);
    magnitude(&rt, -9223372036854775808);
}
