// The two parts of a spoiled book: the lines that are kept, as they stand in it, and a line for each sighting that is dropped.
// Each function asks for the room of its own lines, so each says how much. A reason is the number that `station::judge` writes and an X line prints.
ghost use Rattle.std.specs.Prelude.{◌≡◌, ℕ, ◌+◌, ◌<◌, ◌≤◌, length, get_or};
ghost use Rattle.exact.specs.Tabulate.{tabulate};
ghost use Rattle.text.specs.Lines.{lines_in, line_no};
ghost use Rattle.text.specs.Written.{Puts, in_order};
ghost use Rattle.station.specs.Rescue.{reason};
ghost use Rattle.book.specs.Lines.{book_of};
ghost use Rattle.book.specs.Rescue.{x_line, kept_by, dropped_by, room_for, part_of, spoiled_reply};

use text::writer::Writer;
use text::{LF, find};

// What of a spoiled book is listed.
// An enum and no closure: the promise says by its cases what is listed. So with the sheets of `listing` and the files of `lister`.
#[derive(Clone, Copy, Debug, PartialEq, Eq)]
pub enum Part {
    Kept,
    Dropped,
}

// Bytes that hold the kept lines of any book: 512, with the longest numbers in their ranges.
pub const KEPT: usize = 10752;

// Bytes that hold the lines of any dropped sightings: 512 of 8 bytes.
const DROPPED: usize = 4096;

// Bytes that hold that part of any book.
#[tactic(auto, unfolding(crate::specs::Rescue::room_for))]
pub fn room_for(part: Part) -> usize
    ensures { result ≡ room_for part }
{
    match part {
        Part::Kept => KEPT,
        Part::Dropped => DROPPED,
    }
}

// The lines whose sightings have no reason, each as it stands in the book.
fn put_kept(w: &mut Writer, file: &[u8], reason: &[u8])
    requires { (w.old.at + 10752 ≤ length w.old.out.now) × (length reason.now ≤ 512) × (length reason.now ≡ lines_in file.now)
        × ((h : ℕ) → h < lines_in file.now → length (line_no file.now h) ≤ 20) }
    ensures { Puts w.old (in_order (length reason.now) (kept_by file.now reason.now)) 10752 w.new }
{
    let mut start = 0;
    for why in reason {
        let end = find::place_from(file, LF, start) + 1;
        // a name for the test, which a wrong version turns round
        let kept = *why == 0;
        if kept {
            w.word(&file[start..end]);
        }
        start = end;
    }
}

// The line of a dropped sighting: X, ordinal, reason.
fn put_line(w: &mut Writer, ordinal: u64, reason: u64)
    requires { (w.old.at + 8 ≤ length w.old.out.now) × (ordinal < 1000) × (reason < 10) }
    ensures { Puts w.old (x_line ordinal reason) 8 w.new }
{
    w.byte(b'X');
    w.count(ordinal);
    w.count(reason);
    w.byte(LF);
}

// A line for each sighting that has a reason.
fn put_dropped(w: &mut Writer, reason: &[u8])
    requires { (w.old.at + 4096 ≤ length w.old.out.now) × (length reason.now ≤ 512) × ((h : ℕ) → h < length reason.now → get_or reason.now h 0 < 10) }
    ensures { Puts w.old (in_order (length reason.now) (dropped_by reason.now)) 4096 w.new }
{
    for (h, why) in reason.iter().enumerate() {
        if *why != 0 {
            put_line(w, h as u64 + 1, u64::from(*why));
        }
    }
}

// One part of a book whose reasons are known.
pub fn put(part: Part, w: &mut Writer, file: &[u8], reasons: &[u8])
    requires { (w.old.at + room_for part ≤ length w.old.out.now) × (spoiled_reply file.now ≡ Ok tt)
        × (reasons.now ≡ tabulate (lines_in file.now) (reason (book_of file.now))) }
    ensures { Puts w.old (part_of part file.now) (room_for part) w.new }
{
    match part {
        Part::Kept => put_kept(w, file, reasons),
        Part::Dropped => put_dropped(w, reasons),
    }
}
