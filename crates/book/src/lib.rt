// The sighting book of a station: its lines (`entries`), the means of its sightings by `station`, and the listing of these (`lines`). `means` answers the
// reply and lists an accepted book; `list` above it is for programs. A spoiled book is judged (`spoiled`) and parted (`parts`): `rescue` answers the
// reply and lists what is kept or what is dropped of it, and `list_rescued` is for programs.
#![tactic(auto)]

mod entries;
mod lines;
pub mod parts;
mod spoiled;

ghost use Rattle.std.specs.Prelude.{◌≤◌, length};
ghost use Rattle.text.specs.Written.{Wrote};
ghost use Rattle.book.specs.File.{MeansOf, listing_in};
ghost use Rattle.book.specs.Rescue.{RescuedOf, rescue_listing_in};

use entries::Fields;
use lines::Means;
use parts::Part;
use reply::Refusal;
use station::{MOST, OBJECTS};
use text::writer::Writer;

// The longest listing: that of 16 objects, with the longest numbers.
pub const LISTING: usize = 1136;

// The station means of a sighting book. The listing of an accepted one goes into the lent buffer, which must have room for LISTING bytes; a refusal leaves
// it as it was.
pub fn means(file: &[u8], out: &mut [u8]) -> Result<usize, Refusal>
    ensures { MeansOf file.now out.old result out.new }
{
    if out.len() < LISTING {
        return Err(Refusal::Sightings);
    }
    entries::check_length(file)?;
    let mut fields = Fields::new();
    let n = fields.read(file)?;
    let mut means = Means {
        directions: [0; OBJECTS],
        pairs: [0; OBJECTS],
    };
    station::means(
        &fields.position[..n],
        &fields.object[..n],
        &fields.face[..n],
        &fields.reading[..n],
        &mut means.directions,
        &mut means.pairs,
    )?;
    Ok(means.put(n as u64, out))
}

// The listing of any book, an accepted one's or the line of its refusal; how many bytes it has. A buffer of fewer than LISTING bytes stays as it was, and
// the answer is 0: no code for none, since nothing is written, and that is how many bytes it has.
pub fn list(file: &[u8], out: &mut [u8]) -> usize
    ensures listing { Wrote out.old 0 (listing_in file.now (length out.old)) out.new result }
    ensures within { result ≤ length out.old }
{
    if out.len() < LISTING {
        return 0;
    }
    page::print(means(file, out), out)
}

// One part of a spoiled sighting book: the lines that are kept, or a line for each sighting that is dropped. They go into the lent buffer, which must have
// room for that part of any book (`parts::room_for`); a refusal leaves it as it was.
pub fn rescue(part: Part, file: &[u8], out: &mut [u8]) -> Result<usize, Refusal>
    ensures { RescuedOf part file.now out.old result out.new }
{
    if out.len() < parts::room_for(part) {
        return Err(Refusal::Sightings);
    }
    let mut reason = [0; MOST];
    let sightings = spoiled::judge(file, &mut reason)?;
    let mut w = Writer { out, at: 0 };
    parts::put(part, &mut w, file, &reason[..sightings]);
    Ok(w.at)
}

// The same of any book, or the line of its refusal; how many bytes it has. A buffer without room for that part of any book stays as it was, and the answer
// is 0, as for the means. Not one function with `list`: the room and the operation are all that either has.
pub fn list_rescued(part: Part, file: &[u8], out: &mut [u8]) -> usize
    ensures listing { Wrote out.old 0 (rescue_listing_in part file.now (length out.old)) out.new result }
    ensures within { result ≤ length out.old }
{
    if out.len() < parts::room_for(part) {
        return 0;
    }
    page::print(rescue(part, file, out), out)
}
