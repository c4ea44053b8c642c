// The correlates K, from the last row up.
ghost use Rattle.std.specs.Prelude.{◌≡◌, ℕ, suc, ◌≤◌, ◌<◌, length, nat_abs};
ghost use Rattle.doolittle.specs.Table.{Table, at};
ghost use Rattle.doolittle.specs.Inner.{From, Triangle, BackWithin, Correlated, back_of};

use crate::reduce::{CONSTANT, Row, by_pivot, plus_carried};

// K(j), from its row, its multipliers in the rows below, and the correlates of those.
fn correlate(rows: &[Row; 24], k: &[i64], j: usize, n: usize) -> i64
    requires places { (j < n) × (n ≤ 24) × (n ≤ length k.now) }
    requires row { BackWithin j n rows.now }
    requires below { From (suc j) n (λ e. nat_abs (at k.now e) ≤ 100000000) }
    ensures { result ≡ back_of rows.now k.now j n }
{
    let mut s = by_pivot(10000, rows[j][CONSTANT], rows[j][j]);
    for e in j + 1..n {
        s = plus_carried(s, rows[e][j], k[e]);
    }
    s
}

// All correlates in back order, up to the first that is beyond 10^8, into a lent list; or the row of that one, counted from 1. Whatever table the rows are of,
// they are its correlates. n stands beside the rows, which are 24 whatever the table has; that it is within them and k is asked: the table is not read here.
// The limit is the rule's; another rule has it again, of numbers that a listing says.
pub fn correlates(rows: &[Row; 24], n: usize, k: &mut [i64]) -> Result<(), usize>
    requires room { (n ≤ 24) × (n ≤ length k.old) }
    requires rows { (j : ℕ) → j < n → BackWithin j n rows.now }
    ensures { (t : Table) → t.n ≡ n → Triangle t rows.now → Correlated t k.new result }
{
    for j in (0..n).rev() {
        let x = correlate(rows, k, j, n);
        if 100000000 < exact::magnitude(x) {
            return Err(j + 1);
        }
        k[j] = x;
    }
    Ok(())
}
