// Whether two conditions of a table share three or more directions. The touched directions of each condition are the ones of a 64-bit word, the first
// direction lowest; those that two conditions share are the ones that both words have.
#![tactic(auto)]

ghost use Rattle.std.specs.Prelude.{◌≡◌, not, ◌+◌, ◌*◌, ◌^◌, ◌≤◌, ◌<◌, length, pos};
ghost use Rattle.exact.specs.Same.{same};
ghost use Rattle.touched.specs.Shared.{one_if, shares_three};
ghost use Rattle.touched.specs.Inner.{word_in, shared_ones, shares_before, WordsOf};

// So many directions two conditions share that a report counts them.
const MANY: u32 = 3;

// So many conditions a table has at most. (`doolittle` has as many rows; neither crate uses the other.)
const MOST: usize = 24;

// The word of the directions before direction i, with direction i where its coefficient x is not zero.
fn with_direction(word: u64, i: usize, x: i64) -> u64
    requires { (i < 64) × (word < 2 ^ i) }
    ensures { result ≡ one_if (not (same x (pos 0))) * 2 ^ i + word }
{
    if x == 0 { word } else { word | (1 << i) }
}

// The directions that a condition touches, by the row of its coefficients.
fn touched(row: &[i64]) -> u64
    requires { length row.now ≤ 64 }
    ensures { result ≡ word_in row.now }
{
    let mut word = 0;
    for (i, x) in row.iter().enumerate() {
        word = with_direction(word, i, *x);
    }
    word
}

// The words of all conditions, each made once. (m and n beside the list: see `shares_three`.)
fn words(a: &[i64], m: usize, n: usize) -> [u64; MOST]
    requires { (m ≤ 64) × (n ≤ 24) × (n * m ≤ length a.now) }
    ensures { WordsOf a.now m n result }
{
    let mut all = [0; MOST];
    for j in 0..n {
        all[j] = touched(&a[j * m..j * m + m]);
    }
    all
}

// How many directions two conditions share, by their words.
fn shared(x: u64, y: u64) -> u32
    ensures { result ≡ shared_ones x y }
{
    (x & y).count_ones()
}

// Condition j shares three or more directions with one before it.
fn shares_before(words: &[u64], j: usize) -> bool
    requires { j < length words.now }
    ensures { result ≡ shares_before words.now j }
{
    (0..j).any(|k| MANY <= shared(words[j], words[k]))
}

// Two of the n conditions share three or more of the m directions. The coefficients stand row by row, m to a row. m and n stand beside them, and are asked to be
// a table's: no table is known here.
pub fn shares_three(a: &[i64], m: usize, n: usize) -> bool
    requires { (m ≤ 64) × (n ≤ 24) × (n * m ≤ length a.now) }
    ensures { result ≡ shares_three a.now m n }
{
    let all = words(a, m, n);
    (0..n).any(|j| shares_before(&all, j))
}
