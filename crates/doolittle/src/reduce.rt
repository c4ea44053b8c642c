// The normals and the reduced rows. A row is formed direction by direction; every row above it adds its part, each product once; then it is tested, and its
// multipliers go into the rows below it.
ghost use Rattle.std.specs.Prelude.{◌≡◌, false, ◌&&◌, ℕ, suc, ◌≤◌, ◌<◌, length, pos, neg_ℤ, nat_abs, ◌+ℤ◌, ◌*ℤ◌, ◌<ℤ◌, ltb, leb, set};
ghost use Rattle.exact.specs.Nearest.{nearest};
ghost use Rattle.exact.specs.First.{some_below};
ghost use Rattle.doolittle.specs.Table.{at};
ghost use Rattle.doolittle.specs.Solution.{N, carried, multiplier, low_pivot, weak_row};
ghost use Rattle.doolittle.specs.Lent.{table_in};
ghost use Rattle.doolittle.specs.Inner.{CONSTANT, From, Before, RowWithin, Holds, Shaped, Kept, Reduced, share, with_above, row_at, cell};

use crate::SoundTable;

// A row: its coefficients at their places, and its constant at the last place. In the triangle row j has D(j,k) from place j on, L(j), and before place j
// the multipliers M(i,j) of the rows above; its own stand in the rows below, where those read them.
// One array and no struct of two: coefficients and constant go through the same steps, by their places (`with_above`, `put`).
pub type Row = [i64; 25];

// The place of a row's constant.
pub const CONSTANT: usize = 24;

// The coefficient of a direction that a condition does not touch.
const UNTOUCHED: i64 = 0;

// q*x, where q is an inverse weight, and x a coefficient or a sum of a*K.
pub fn weighted(q: i64, x: i64) -> i64
    requires { (nat_abs q ≤ 10) × (nat_abs x ≤ 4800000000000) }
    ensures { result ≡ q *ℤ x }
{
    q * x
}

// s + x*y: one product more in a sum, of N, V, R or Q.
pub fn plus_product(s: i64, x: i64, y: i64) -> i64
    requires { (nat_abs s ≤ 7000000000000000000) × (nat_abs x ≤ 20000) × (nat_abs y ≤ 50000000000000) }
    ensures { result ≡ s +ℤ x *ℤ y }
{
    s + x * y
}

// What direction i adds to row j: q(i)*a(j,i)*a(k,i) to the entry at each place k from j on; nothing where the condition does not touch the direction.
// The coefficients of row k begin at `to`, which goes on with k: no turn multiplies for its place.
// That j is a condition is asked as the bound of an index, here and below.
#[tactic(auto, using(std::proofs::lemmas::Nat::rows))]
fn add_direction(table: SoundTable, j: usize, i: usize, row: &mut Row)
    requires touched { (j < length table.w.now) × (i < length table.q.now) }
    requires entries { From j (length table.w.now) (λ k. nat_abs (at row.old k) ≤ 2560000000) }
    ensures { Holds j (length table.entry.w.now)
        (λ k. at row.old k +ℤ share (table_in table.entry) j k i)
        (at row.old CONSTANT) row.new }
{
    let SoundTable { q, a, w, .. } = table;
    let x = a[j * q.len() + i];
    if x == UNTOUCHED {
        return;
    }
    let gx = weighted(q[i], x);
    let mut to = j * q.len();
    for k in j..w.len() {
        row[k] = plus_product(row[k], gx, a[to + i]);
        to += q.len();
    }
}

// Row j before any row above it is taken: N(j,k) for k from j on, and 1,000*w(j). It is formed direction by direction, in the row itself.
fn normal_row(table: SoundTable, j: usize) -> Row
    requires { j < length table.w.now }
    ensures { Holds j (length table.entry.w.now) (N (table_in table.entry) j)
        (pos 1000 *ℤ at table.entry.w.now j) result }
{
    let mut row = [0; 25];
    row[CONSTANT] = 1000 * table.w[j];
    for i in 0..table.q.len() {
        add_direction(table, j, i, &mut row);
    }
    row
}

// nearest(M*x / 10^6): what a row above adds. The bounds of M and of x are asked by each step that multiplies: a type for such a number would be made at
// each read of a row, only to be multiplied.
fn carried(m: i64, x: i64) -> i64
    requires { (nat_abs m ≤ 1000000000) × (nat_abs x ≤ 4000000000) }
    ensures { result ≡ carried m x }
{
    exact::nearest(m * x, 1000000)
}

// s + nearest(M*x / 10^6).
pub fn plus_carried(s: i64, m: i64, x: i64) -> i64
    requires { (nat_abs s ≤ 100000000000000) × (nat_abs m ≤ 1000000000) × (nat_abs x ≤ 4000000000) }
    ensures { result ≡ s +ℤ carried m x }
{
    s + carried(m, x)
}

// The number x of row j at place k with all rows above taken: x + sum over i<j of nearest(M(i,j)*D(i,k) / 10^6). Coefficients and constants alike.
fn with_above(x: i64, rows: &[Row; 24], j: usize, k: usize) -> i64
    requires places { (j < 24) × (k < 25) × (nat_abs x ≤ 2560000000) }
    requires above { (i : ℕ) → i < j → (nat_abs (cell rows.now j i) ≤ 1000000000) × (nat_abs (cell rows.now i k) ≤ 4000000000) }
    ensures { result ≡ with_above x rows.now j k }
{
    let mut s = x;
    for i in 0..j {
        s = plus_carried(s, rows[j][i], rows[i][k]);
    }
    s
}

// x at a place of a row. That the row has 25 places is said here, by its type: of an array of rows the checker knows how many there are, and not how long.
fn put(row: &mut Row, place: usize, x: i64)
    requires { place < 25 }
    ensures long { length row.old ≡ 25 }
    ensures stored { row.new ≡ set row.old place x }
{
    row[place] = x;
}

// Row j with all rows above it taken, behind their multipliers. That j is below n, and n at most 24, is asked here and below: a type for the two would be
// made in `reduce` alone, and opened at every index.
fn reduced(row: Row, rows: &[Row; 24], j: usize, n: usize) -> Row
    requires places { (j < n) × (n ≤ 24) }
    requires own { RowWithin 2560000000 j n row }
    requires above { (i : ℕ) → i < j → (nat_abs (cell rows.now j i) ≤ 1000000000) × RowWithin 4000000000 j n (row_at rows.now i) }
    ensures holds { Holds j n (λ k. with_above (at row k) rows.now j k) (with_above (at row CONSTANT) rows.now j CONSTANT) result }
    ensures before { Before j (row_at rows.now j) result }
{
    let mut next = rows[j];
    let constant = with_above(row[CONSTANT], rows, j, CONSTANT);
    put(&mut next, CONSTANT, constant);
    for k in j..n {
        next[k] = with_above(row[k], rows, j, k);
    }
    next
}

// nearest(-factor*x / D(j,j)): a multiplier, or a row's own part of its correlate.
pub fn by_pivot(factor: i64, x: i64, pivot: i64) -> i64
    requires { (nat_abs factor ≤ 1000000) × (nat_abs x ≤ 4000000000) × (pos 0 <ℤ pivot) }
    ensures { result ≡ nearest (neg_ℤ (factor *ℤ x)) pivot }
{
    exact::nearest(-(factor * x), pivot)
}

// The multipliers M(j,k) of row j, each into its place in row k, up to the first that is larger than 10^9; whether one is.
// A bool and no Result: the rules' test of a row is one yes or no, of which this is the last part.
fn multiply(row: Row, j: usize, n: usize, rows: &mut [Row; 24]) -> bool
    requires places { (j < n) × (n ≤ 24) × Shaped rows.old }
    requires own { From j n (λ k. nat_abs (at row k) ≤ 2560000000) × (pos 0 <ℤ at row j) }
    ensures value { result ≡ some_below n (λ k. ltb j k && ltb 1000000000 (nat_abs (multiplier (at row k) (at row j)))) }
    ensures multiplied { result ≡ false → From (suc j) n (λ k. cell rows.new k j ≡ multiplier (at row k) (at row j)) }
    ensures kept { Kept j rows.old rows.new }
{
    for k in j + 1..n {
        let m = by_pivot(1000000, row[k], row[j]);
        if 1000000000 < exact::magnitude(m) {
            return true;
        }
        put(&mut rows[k], j, m);
    }
    false
}

// The pivot D(j,j) is below 1, or 1,000 times it below the entry N(j,j) with which the row began.
fn is_low(pivot: i64, entry: i64) -> bool
    requires { nat_abs pivot ≤ 2560000000 }
    ensures { result ≡ low_pivot pivot entry }
{
    pivot < 1 || 1000 * pivot < entry
}

// The one test of row j, each part as soon as what it tests is complete. `entry` is its N(j,j). The multipliers of a row that is not weak go into the rows
// below it.
fn is_weak(row: Row, entry: i64, j: usize, n: usize, rows: &mut [Row; 24]) -> bool
    requires { (j < n) × (n ≤ 24) × Shaped rows.old }
    ensures value { result ≡ weak_row n j entry (at row) (at row CONSTANT) }
    ensures multiplied { result ≡ false → From (suc j) n (λ k. cell rows.new k j ≡ multiplier (at row k) (at row j)) }
    ensures kept { Kept j rows.old rows.new }
{
    if exact::some_beyond(2560000000, &row[j..n])
        || 4000000000 < exact::magnitude(row[CONSTANT])
        || is_low(row[j], entry)
    {
        // no `||` before the last test, since that one also writes
        return true;
    }
    multiply(row, j, n, rows)
}

// A row has 25 places: its type says it here, as at `put`.
fn tell_places(row: &Row)
    ensures { length row.now ≡ 25 }
{}

// The triangle has 24 rows of 25 places, which no caller need say: each row's type tells its own. Nothing is read, so that nothing is left to run.
fn tell_shape(rows: &[Row; 24])
    ensures { Shaped rows.now }
{
    for h in 0..24 {
        tell_places(&rows[h]);
    }
}

// All rows in their order, up to the first weak one, into the triangle, with their multipliers; or the first weak one, counted from 0: it is the whole error,
// since no refusal is known here.
pub fn reduce(table: SoundTable, rows: &mut [Row; 24]) -> Result<(), usize>
    ensures { Reduced (table_in table.entry) rows.new result }
{
    tell_shape(rows);
    let n = table.w.len();
    for j in 0..n {
        // the row of N is reduced in its own local, which spares the stack a second one: its entry is read first
        let mut row = normal_row(table, j);
        let entry = row[j];
        row = reduced(row, rows, j, n);
        if is_weak(row, entry, j, n, rows) {
            return Err(j);
        }
        rows[j] = row;
    }
    Ok(())
}
