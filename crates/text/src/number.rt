// Numbers as the files write them: an optional minus, no leading zero except "0" itself, no "-0", 1 to `most` digits, which are at most 18. Each is
// read once, from its first byte to the one that ends it.
ghost use Rattle.std.specs.Prelude.{◌≡◌, ◌+◌, ◌<◌, ◌≤◌, length, MatchOption};
ghost use Rattle.text.specs.Numbers.{Spans, SpansTo, Reads, unsigned_to, number_to};

// The digits that stand at a start, so many at most: their value, and where they end.
#[derive(Clone, Copy, Debug, PartialEq, Eq)]
struct Span {
    value: u64,
    end: usize,
}

// The number up to a byte, and the place after that byte.
#[derive(Clone, Copy, Debug, PartialEq, Eq)]
pub struct Read {
    pub value: i64,
    pub next: usize,
}

// The digits from a start on, up to the first byte that is none or until there are `most`. By hand and no `parse`: that takes a plus and leading zeros, and
// no bound on the digits, so that each of these tests would stand beside it.
// Each function here asks the start to be in the text and `most` to be small: a type for such a place would be made anew for each number, and say no more.
fn digits_from(most: usize, text: &[u8], start: usize) -> Span
    requires { (most ≤ 18) × (start ≤ length text.now) }
    ensures { Spans most text.now start result }
{
    let last = text.len().min(start + most);
    let mut value = 0;
    for end in start..last {
        let byte = text[end];
        if !byte.is_ascii_digit() {
            return Span { value, end };
        }
        value = 10 * value + u64::from(byte - b'0');
    }
    Span { value, end: last }
}

// The digits from a start up to the first byte `ending`, where there are 1 to `most` and no leading zero.
#[tactic(auto, using(crate::proofs::Spanning::no_span))]
fn unsigned_to(most: usize, text: &[u8], start: usize, ending: u8) -> Option<Span>
    requires { (most ≤ 18) × (start ≤ length text.now) × (ending < 45) }
    ensures { MatchOption result (unsigned_to most ending text.now start ≡ None) (SpansTo most ending text.now start) }
{
    let span = digits_from(most, text, start);
    let end = span.end;
    if end == text.len()
        || text[end] != ending
        || end == start
        || start + 1 < end && text[start] == b'0'
    {
        return None;
    }
    Some(span)
}

// The number of at most so many digits from a start up to the first byte `ending`, a tab or an LF; "-0" is none.
#[tactic(auto, using(crate::proofs::Spanning::by_sign))]
pub fn read_to(most: usize, text: &[u8], start: usize, ending: u8) -> Option<Read>
    requires { (most ≤ 18) × (start ≤ length text.now) × (ending < 45) }
    ensures { MatchOption result (number_to most ending text.now start ≡ None) (Reads most ending text.now start) }
{
    if text[start..].starts_with(b"-") {
        let Span { value, end } = unsigned_to(most, text, start + 1, ending)?;
        if value == 0 {
            return None;
        }
        return Some(Read {
            value: -(value as i64),
            next: end + 1,
        });
    }
    let Span { value, end } = unsigned_to(most, text, start, ending)?;
    Some(Read {
        value: value as i64,
        next: end + 1,
    })
}
