// A spoiled book, read: why each of its sightings is dropped, by `station`.
ghost use Rattle.book.specs.Rescue.{JudgedAs};

use crate::entries;
use crate::entries::Fields;
use reply::Refusal;
use station::MOST;

// Why each sighting of a book is dropped, into the first places of a lent list; how many sightings there are.
pub fn judge(file: &[u8], reason: &mut [u8; MOST]) -> Result<usize, Refusal>
    ensures { JudgedAs file.now result reason.new }
{
    entries::check_length(file)?;
    let mut fields = Fields::new();
    let n = fields.read(file)?;
    station::judge(
        &fields.position[..n],
        &fields.object[..n],
        &fields.face[..n],
        &fields.reading[..n],
        &mut reason[..n],
    )?;
    Ok(n)
}
