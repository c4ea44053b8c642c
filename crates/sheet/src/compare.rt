// A listing's numbers held against what its own K give, by the functions of `adjustment` that take any correlates.
ghost use Rattle.std.specs.Prelude.{◌≡◌, List, ℕ, ◌+◌, ◌*◌, ◌≤◌, ◌<◌, ltb, length, get_or, pos, nat_abs};
ghost use Rattle.exact.specs.First.{first};
ghost use Rattle.doolittle.specs.Table.{at};
ghost use Rattle.doolittle.specs.Lent.{table_in};
ghost use Rattle.doolittle.specs.Inner.{HasSmall, Small};
ghost use Rattle.sheet.specs.Form.{own_k};
ghost use Rattle.sheet.specs.Check.{direction_differs, condition_differs, disagreement, opinion_at};
ghost use Rattle.sheet.specs.Inner.{number_at, pair_unlike, WellFormed, Corrected};

use crate::Opinion;
use crate::form::NUMBERS;
use adjustment::correct;
use doolittle::SoundTable;
use network::Size;

// The correlates of n K lines behind m V lines, up to the first beyond 10^8, into a lent list; which that is, or n. A number and no Option, here
// and below: the rules' `first` is one, and what follows is told by it. The counts are those of the places that a loop goes over, beside lists
// as long as the largest net's.
fn take_correlates(x: &[i64; NUMBERS], m: usize, n: usize, k: &mut [i64; 24]) -> usize
    requires { (m ≤ 64) × (n ≤ 24) }
    ensures value { result ≡ first n (λ j. ltb 100000000 (nat_abs (number_at x.now (m + j) 1))) }
    ensures stored { (j : ℕ) → j < result → get_or k.new j (pos 0) ≡ number_at x.now (m + j) 1 }
{
    for j in 0..n {
        let y = x[4 * (m + j) + 1];
        if 100_000_000 < exact::magnitude(y) {
            return j;
        }
        k[j] = y;
    }
    n
}

// The first of `count` lines whose two numbers, side by side, are not those of the two lists; `count` where there is none. The numbers of the first line
// stand from place `from` on. A loop by index: it goes over three lists at different paces, which a chain of iterators would say in more words.
fn first_unlike(x: &[i64; NUMBERS], from: usize, a: &[i64], b: &[i64], count: usize) -> usize
    requires { (from + 4 * count ≤ 354) × (count ≤ length a.now) × (count ≤ length b.now) }
    ensures { result ≡ first count (pair_unlike x.now from a.now b.now) }
{
    for i in 0..count {
        let here = from + 4 * i;
        let one = a[i];
        let other = b[i];
        if x[here] != one || x[here + 1] != other {
            return i;
        }
    }
    count
}

// The first direction whose V line says something else than what the correlates k give, or m. The corrections V go into a lent list, and so do the
// printed ones and the adjusted directions, up to the first past one minute.
fn first_direction(
    directions: &[i64],
    table: SoundTable,
    x: &[i64; NUMBERS],
    k: &[i64; 24],
    v: &mut [i64; 64],
    u: &mut [i64; 64],
    adjusted: &mut [i64; 64],
) -> usize
    requires in_circle { (length directions.now ≡ length table.q.now) × Small 1296000000 directions.now (length table.q.now) }
    requires k_small { HasSmall 100000000 k.now (length table.w.now) }
    ensures line { (listing : List ℕ) → WellFormed listing (length table.entry.q.now) (length table.entry.w.now) x.now →
        ((j : ℕ) → j < length table.entry.w.now → at k.now j ≡ own_k listing j) →
        result ≡ first (length table.entry.q.now) (direction_differs (table_in table.entry) (at directions.now) listing) }
    ensures corrected { length table.entry.q.now ≤ result → Corrected (table_in table.entry) (at k.now) v.new u.new }
{
    correct::corrections(table, k, v);
    let within = correct::print_corrections(&v[..table.q.len()], u);
    correct::adjust_directions(directions, u, &mut adjusted[..within]);
    first_unlike(x, 1, u, adjusted, within)
}

// The first condition whose K line says something else than what the corrections v, and u printed of them, give, or n. The remainders and the printed
// remainders go into lent lists.
fn first_condition(
    table: SoundTable,
    x: &[i64; NUMBERS],
    v: &[i64; 64],
    u: &[i64; 64],
    r: &mut [i64; 24],
    misses: &mut [i64; 24],
) -> usize
    requires v_small { HasSmall 48000000000000 v.now (length table.q.now) }
    requires u_small { HasSmall 60000 u.now (length table.q.now) }
    ensures { (listing : List ℕ) → WellFormed listing (length table.entry.q.now) (length table.entry.w.now) x.now →
        Corrected (table_in table.entry) (own_k listing) v.now u.now →
        result ≡ first (length table.entry.w.now) (condition_differs (table_in table.entry) listing) }
{
    let close = correct::remainders(table, v, r);
    correct::print_remainders(table, u, &mut misses[..table.w.len()]);
    first_unlike(x, 4 * table.q.len() + 2, r, misses, close)
}

// The opinion on a listing of those counts: the tests of its counts, of the sizes of its K, of its V lines and of its K lines, up to the first that fails. The
// contract speaks of whatever listing the numbers are of, since the function is handed only numbers.
// Lists of its own and no `AnswerLists`: those hold what a net's own K give, and here K are the listing's.
pub fn opinion(directions: &[i64], table: SoundTable, x: &[i64; NUMBERS], counts: Size) -> Opinion
    requires in_circle { (length directions.now ≡ length table.q.now) × Small 1296000000 directions.now (length table.q.now) }
    ensures { (listing : List ℕ) → WellFormed listing counts.m counts.n x.now →
        result ≡ opinion_at (disagreement (table_in table.entry) (at directions.now) listing) }
{
    let Size { m, n } = counts;
    if m != table.q.len() || n != table.w.len() {
        return Opinion::No(1);
    }
    let mut k = [0; 24];
    let sized = take_correlates(x, m, n, &mut k);
    if sized < n {
        return Opinion::No((m + 2 + sized) as u64);
    }
    let mut v = [0; 64];
    let mut u = [0; 64];
    let mut adjusted = [0; 64];
    let direction = first_direction(directions, table, x, &k, &mut v, &mut u, &mut adjusted);
    if direction < m {
        return Opinion::No((direction + 2) as u64);
    }
    let mut r = [0; 24];
    let mut misses = [0; 24];
    let condition = first_condition(table, x, &v, &u, &mut r, &mut misses);
    if condition < n {
        return Opinion::No((m + 2 + condition) as u64);
    }
    Opinion::Yes
}
