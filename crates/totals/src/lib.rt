// The sixteen totals of a season report (specs/Totals.antt has their places): a net's share added to them, the public operation on two reports, a report as
// text, and the sum of reports that come as text.
#![tactic(auto)]

pub mod adding;
pub mod report;

ghost use Rattle.std.specs.Prelude.{◌≡◌, [], ℕ, ◌+◌, ◌≤◌, ◌<◌, length, get_or};
ghost use Rattle.totals.specs.Totals.{largest_at, joined, sum_of, report_of};
ghost use Rattle.totals.specs.Promise.{too_large, sizes_reply, Adds};

use reply::Refusal;

// How many totals a report has.
pub const TOTALS: usize = 16;

// The most nets that a report holds.
pub const MOST_NETS: u64 = 100_000;

// The refusal of more nets: its place is the first net too many.
pub const TOO_MANY_NETS: Refusal = Refusal::Nets(MOST_NETS + 1);

// The most that a number of a report may be: 18 digits.
pub const MOST_TOTAL: u64 = 999_999_999_999_999_999;

// The places of the largest sizes, in C's list of sixteen, as specs/Totals has them.
#[tactic(auto, unfolding(crate::specs::Totals::largest_at))]
fn largest_at(i: usize) -> bool
    ensures { result ≡ largest_at i }
{
    matches!(i, 12 | 14)
}

// Two numbers of place i made one: the larger at the places of the largest sizes, their sum elsewhere.
#[tactic(auto, unfolding(crate::specs::Totals::joined))]
fn joined(i: usize, x: u64, y: u64) -> u64
    requires { x + y ≤ 18446744073709551615 }
    ensures { result ≡ joined i x y }
{
    if largest_at(i) { x.max(y) } else { x + y }
}

// The report of no nets.
#[tactic(auto, unfolding(crate::specs::Totals::report_of, crate::specs::Totals::total, exact::specs::Tabulate::tabulate))]
pub fn clear(totals: &mut [u64; TOTALS])
    ensures { totals.new ≡ report_of [] }
{
    *totals = [0; TOTALS];
}

// Adds a report, or one net's share, to the totals.
pub fn add(totals: &mut [u64; TOTALS], more: &[u64; TOTALS])
    requires { (i : ℕ) → i < 16 → get_or totals.old i 0 + get_or more.now i 0 ≤ 18446744073709551615 }
    ensures { totals.new ≡ sum_of totals.old more.now }
{
    for i in 0..TOTALS {
        totals[i] = joined(i, totals[i], more[i]);
    }
}

// Whether two numbers of place i, or what both make, are past 18 digits.
#[tactic(auto, unfolding(crate::specs::Promise::too_large))]
fn too_large(i: usize, x: u64, y: u64) -> bool
    ensures { result ≡ too_large i x y }
{
    x > MOST_TOTAL || y > MOST_TOTAL || joined(i, x, y) > MOST_TOTAL
}

// Refuses the first place at which a number is past 18 digits, counted from 1. Not one with `direction::check`, which says why.
fn check(first: &[u64; TOTALS], second: &[u64; TOTALS]) -> Result<(), Refusal>
    ensures { result ≡ sizes_reply first.now second.now }
{
    for (i, x) in first.iter().enumerate() {
        if too_large(i, *x, second[i]) {
            return Err(Refusal::OutOfRange(i as u64 + 1));
        }
    }
    Ok(())
}

// The sum of two lent reports, into a third list, which a refusal leaves as it was.
pub fn add_reports(first: &[u64], second: &[u64], sum: &mut [u64]) -> Result<(), Refusal>
    ensures { Adds first.now second.now sum.old result sum.new }
{
    let first = first.as_array().ok_or(Refusal::Count(0))?;
    let second = second.as_array().ok_or(Refusal::Count(0))?;
    let sum = sum.as_mut_array().ok_or(Refusal::Count(0))?;
    check(first, second)?;
    if first[0] + second[0] > MOST_NETS {
        return Err(TOO_MANY_NETS);
    }
    *sum = *first;
    add(sum, second);
    Ok(())
}
