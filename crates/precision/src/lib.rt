// Mean and probable error of a direction, from printed corrections u, their inverse weights q and the number n of conditions: the public
// operation on lent lists, `probable_error`, and `estimate`, for lists that it accepts. u, q and n come one by one, as C lends them.
#![tactic(auto)]

mod root;
mod squares;

ghost use Rattle.std.specs.Prelude.{◌≡◌, length};
ghost use Rattle.precision.specs.Errors.{errors_of};
ghost use Rattle.precision.specs.Promise.{ranges_reply, errors_reply, FindsErrors};

use adjustment::MINUTE;
use reply::Refusal;

// The mean and the probable error of a direction, in 0.001 second.
#[derive(Clone, Copy, Debug, PartialEq, Eq)]
pub struct Errors {
    pub mean: i64,
    pub probable: i64,
}

// Refuses the first direction whose u is past one minute or whose q is out of range, by its number.
// Not one with `direction::check`, which says why.
fn check(u: &[i64], q: &[i64]) -> Result<(), Refusal>
    requires { length q.now ≡ length u.now }
    ensures { result ≡ ranges_reply u.now q.now }
{
    for (i, x) in u.iter().enumerate() {
        if MINUTE < exact::magnitude(*x) || direction::weight_out_of_range(q[i]) {
            return Err(Refusal::OutOfRange(i as u64 + 1));
        }
    }
    Ok(())
}

// Both errors, of lists that are accepted.
// n is the number of conditions, which is the length of neither list.
#[tactic(auto, using(crate::proofs::Admitting::admitted))]
pub fn estimate(u: &[i64], q: &[i64], n: usize) -> Errors
    requires { errors_reply u.now q.now n ≡ Ok tt }
    ensures { result ≡ errors_of u.now q.now n }
{
    let e = root::root(2520 * n as u64, squares::sum(u, q)) as i64;
    Errors {
        mean: e,
        probable: exact::nearest(6745 * e, 10_000),
    }
}

// The mean and the probable error of lent lists: of the printed corrections u of all directions, their q, and how many conditions there were.
// n is the number of conditions, which is the length of neither list.
pub fn probable_error(u: &[i64], q: &[i64], n: usize) -> Result<Errors, Refusal>
    ensures { FindsErrors u.now q.now n result }
{
    if adjustment::counts_amiss(u.len(), n) || q.len() != u.len() {
        return Err(Refusal::Count(0));
    }
    check(u, q)?;
    Ok(estimate(u, q, n))
}
