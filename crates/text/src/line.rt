// The lines of a file, each ended by LF. Any start is allowed, and no length is too long.
ghost use Rattle.std.specs.Prelude.{◌≡◌};
ghost use Rattle.text.specs.Lines.{line_at, status_at};

use crate::{LF, find};

// What stands at a start.
#[derive(Clone, Copy, Debug, PartialEq, Eq)]
pub enum LineStatus {
    // A line with its LF.
    Whole,
    // The start is at or past the end.
    NoneLeft,
    // Bytes, and no LF after them.
    LfMissing,
}

// The line that starts at `start`, as the caller's own bytes, without its LF. Empty where `line_status` does not say `Whole`.
#[tactic(auto, unfolding(crate::specs::Lines::line_at, crate::specs::Parts::place_from))]
pub fn line<'a>(file: &'a [u8], start: usize) -> &'a [u8]
    ensures { result.now ≡ line_at file.now start }
{
    let end = find::place_from(file, LF, start);
    if end < file.len() {
        &file[start..end]
    } else {
        &file[..0]
    }
}

// What stands at `start`: a line, none left, or bytes whose LF is missing.
// Two functions and no Option, as C has them; the rules name a reader that returns a part of the slice.
#[tactic(auto, unfolding(crate::specs::Lines::status_at))]
pub fn line_status(file: &[u8], start: usize) -> LineStatus
    ensures { result ≡ status_at file.now start }
{
    if file.len() <= start {
        LineStatus::NoneLeft
    } else if find::place_from(file, LF, start) < file.len() {
        LineStatus::Whole
    } else {
        LineStatus::LfMissing
    }
}
