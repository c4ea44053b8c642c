// Station means: the sightings of a station, in any order of arrival, become a direction and a count of pairs for each of the 16 objects.
// The list is read twice, once to check its fields (`fields`) and once into a table by face, position and object (`table`). All that follows works
// on the table: the checks of pairs and positions (`checks`) on the figures of a pair (`pair`), and the directions (`answer`).
// A spoiled list is rescued by the same table and checks (`steps`): what they find at fault is dropped, and the list is parted (`parting`).
// Each operation is lent a list for each field, and lists of numbers for its answers: so C lends them, and the promises in specs/ name each.
#![tactic(auto)]

mod answer;
mod checks;
mod fields;
mod pair;
mod parting;
mod steps;
mod table;

ghost use Rattle.station.specs.Sightings.{book};
ghost use Rattle.station.specs.Replies.{Answers};
ghost use Rattle.station.specs.Rescue.{lent, rooms, Rescues, Judges};

use crate::fields::Sightings;
use crate::table::Table;
use reply::Refusal;

// The most sightings of a station.
pub const MOST: usize = 512;

// The positions of a station, and its objects, for each of which an answer list has a place.
const POSITIONS: usize = 16;

pub const OBJECTS: usize = 16;

// The positions and objects together, in the order of the checks; a station's table has each of them for either face.
const PLACES: usize = POSITIONS * OBJECTS;

// How many sightings of a spoiled list are kept and dropped.
#[derive(Clone, Copy, Debug, PartialEq, Eq)]
pub struct Rescued {
    pub kept: usize,
    pub dropped: usize,
}

// The direction and the number of pairs of each object, in the two lent lists of 16; or why the sightings are refused, and the lists stay as they were.
pub fn means(
    position: &[i64],
    object: &[i64],
    face: &[i64],
    reading: &[i64],
    direction: &mut [i64],
    pairs: &mut [i64],
) -> Result<(), Refusal>
    ensures { Answers (book position.now object.now face.now reading.now) direction.old pairs.old result direction.new pairs.new }
{
    if direction.len() != OBJECTS || pairs.len() != OBJECTS {
        return Err(Refusal::Sightings);
    }
    let sightings = Sightings {
        position,
        object,
        face,
        reading,
    }
    .checked()?;
    let mut table = Table::new();
    table.tally(&sightings);
    checks::make_all(&table)?;
    answer::write(&table, direction, pairs);
    Ok(())
}

// Why each sighting of a spoiled list is dropped, 1 to 4 by the step that drops it, and 0 where it is kept, into a lent list of as many places; or why the
// sightings are refused, and the list stays as it was. The list holds numbers, with 0 for none, since `Judges` says so.
pub fn judge(
    position: &[i64],
    object: &[i64],
    face: &[i64],
    reading: &[i64],
    reason: &mut [u8],
) -> Result<(), Refusal>
    ensures { Judges (book position.now object.now face.now reading.now) reason.old result reason.new }
{
    if reason.len() != position.len() {
        return Err(Refusal::Sightings);
    }
    let sightings = Sightings {
        position,
        object,
        face,
        reading,
    }
    .checked()?;
    let mut table = Table::new();
    table.tally(&sightings);
    let why = steps::all(&mut table);
    if !steps::any_kept(&sightings, &why) {
        return Err(Refusal::NothingLeft);
    }
    steps::write_reasons(&sightings, &why, reason);
    Ok(())
}

// The rescue of a spoiled list: the kept sightings in their old order, into four lent lists, and for each dropped one its ordinal and its reason, into two
// more, each of as many places as there are sightings; or why the sightings are refused, and the lists stay as they were.
pub fn rescue(
    position: &[i64],
    object: &[i64],
    face: &[i64],
    reading: &[i64],
    kept_position: &mut [i64],
    kept_object: &mut [i64],
    kept_face: &mut [i64],
    kept_reading: &mut [i64],
    ordinals: &mut [u64],
    reasons: &mut [u64],
) -> Result<Rescued, Refusal>
    ensures { Rescues (book position.now object.now face.now reading.now)
        (lent kept_position.old kept_object.old kept_face.old kept_reading.old ordinals.old reasons.old)
        result
        (lent kept_position.new kept_object.new kept_face.new kept_reading.new ordinals.new reasons.new) }
{
    let n = position.len();
    let rooms = [
        kept_position.len(),
        kept_object.len(),
        kept_face.len(),
        kept_reading.len(),
        ordinals.len(),
        reasons.len(),
    ];
    if !parting::rooms_fit(n, rooms) || MOST < n {
        return Err(Refusal::Sightings);
    }
    let mut noted = [0u8; MOST];
    let reason = &mut noted[..n];
    judge(position, object, face, reading, reason)?;
    parting::keep(reason, position, kept_position);
    parting::keep(reason, object, kept_object);
    parting::keep(reason, face, kept_face);
    let kept = parting::keep(reason, reading, kept_reading);
    let dropped = parting::list_dropped(reason, ordinals, reasons);
    Ok(Rescued { kept, dropped })
}
