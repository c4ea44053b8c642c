// The lines of a listing, each read once: the ADJ line, and by its counts the V and K lines that are due. Their numbers go into one list, four places to a
// line, whatever its kind: no list of rows, since each line is read into the places from its own on.
ghost use Rattle.std.specs.Prelude.{◌≡◌, ◌+◌, ◌<◌, ◌≤◌, length, take};
ghost use Rattle.text.specs.Parts.{place_from};
ghost use Rattle.text.specs.Lines.{LF};
ghost use Rattle.text.specs.Rows.{lettered_within, row_values, end_of};
ghost use Rattle.sheet.specs.Form.{heading_of, directions_in, conditions_in, fields_due, numbered};
ghost use Rattle.sheet.specs.Inner.{due_from, Headed, FormedAs};

use network::Size;
use reply::Refusal;
use text::{find, row};

// The most digits of a number in a listing, its rule's own.
const MOST_DIGITS: usize = 18;

// Places for the numbers of 64 V lines and 24 K lines, the limits of the rule in specs/.
pub const NUMBERS: usize = 352;

// The two counts of the ADJ line.
fn heading(listing: &[u8], x: &mut [i64; 2]) -> Option<usize>
    ensures end { result ≡ end_of (heading_of listing.now) (place_from LF listing.now 4 + 1) }
    ensures values { take 2 x.new ≡ row_values (heading_of listing.now) (take 2 x.new) }
{
    if !find::begins(listing, b"ADJ\t") {
        return None;
    }
    row::read(MOST_DIGITS, listing, 4, 2, x)
}

// A line of that letter and so many numbers, of which the first is its own. The letter is a byte, as the text has it.
fn numbered_line(
    listing: &[u8],
    start: usize,
    letter: u8,
    count: usize,
    number: usize,
    x: &mut [i64],
) -> Option<usize>
    requires { (start ≤ length listing.now) × (10 < letter) × (1 ≤ count) × (count ≤ length x.old) × (number ≤ 64) }
    ensures end { result ≡ end_of (numbered number (lettered_within 18 listing.now start letter count)) (place_from LF listing.now start + 1) }
    ensures values { take count x.new ≡ row_values (numbered number (lettered_within 18 listing.now start letter count)) (take count x.new) }
    ensures long { length x.new ≡ length x.old }
{
    let next = row::read_behind(MOST_DIGITS, listing, start, letter, count, x)?;
    if x[0] != number as i64 {
        return None;
    }
    Some(next)
}

// The line at place i behind the ADJ line of m directions.
fn due_line(listing: &[u8], start: usize, m: usize, i: usize, x: &mut [i64]) -> Option<usize>
    requires { (start ≤ length listing.now) × (4 ≤ length x.old) × (m ≤ 64) × (i < m + 24) }
    ensures end { result ≡ end_of (due_from listing.now start m i) (place_from LF listing.now start + 1) }
    ensures values { take (fields_due m i) x.new ≡ row_values (due_from listing.now start m i) (take (fields_due m i) x.new) }
    ensures long { length x.new ≡ length x.old }
{
    if i < m {
        return numbered_line(listing, start, b'V', 3, i + 1, x);
    }
    numbered_line(listing, start, b'K', 4, i - m + 1, x)
}

// The lines behind the ADJ line, which ends at `start`, and that nothing follows them. m and n are a `Size` only once their lines have been read.
fn lines(
    listing: &[u8],
    start: usize,
    m: usize,
    n: usize,
    x: &mut [i64; NUMBERS],
) -> Result<Size, Refusal>
    requires { Headed listing.now start m n }
    ensures { FormedAs listing.now result x.new }
{
    let mut next = start;
    for i in 0..m + n {
        next = due_line(listing, next, m, i, &mut x[4 * i..]).ok_or(Refusal::Sheet(i as u64 + 2))?;
    }
    if next < listing.len() {
        return Err(Refusal::Sheet((m + n + 2) as u64));
    }
    Ok(Size { m, n })
}

// All lines of a listing.
pub fn read(listing: &[u8], x: &mut [i64; NUMBERS]) -> Result<Size, Refusal>
    ensures { FormedAs listing.now result x.new }
{
    let mut counts = [0; 2];
    let start = heading(listing, &mut counts).ok_or(Refusal::Sheet(1))?;
    let [m, n] = counts;
    if exact::outside(1, 64, m) || exact::outside(1, 24, n) {
        return Err(Refusal::Sheet(1));
    }
    lines(listing, start, m as usize, n as usize, x)
}
