// The station's table: a count and a sum of readings for each face, position and object, filled in one pass over the list.
// Positions and objects count from 0 here: i for position i + 1, j for object j + 1.
ghost use Rattle.std.specs.Prelude.{◌≡◌, ◌-◌, ◌<◌, ◌≤◌, pos, nat_abs, replicate};
ghost use Rattle.station.specs.Table.{slot, entry, counts, readings};
ghost use Rattle.station.specs.Means.{L, R, seen};
ghost use Rattle.station.specs.Steps.{cleared};
ghost use Rattle.station.specs.Bounds.{book_of, CountTable, SumTable};

use crate::fields::SoundSightings;
use crate::{OBJECTS, PLACES};

// The places of a table: those of the left face, and then those of the right.
const SLOTS: usize = 2 * PLACES;

// Where in the table a pair stands; position and object count from 0.
#[derive(Clone, Copy, Debug, PartialEq, Eq)]
pub struct PairAt {
    pub position: usize,
    pub object: usize,
    ghost inside: { (position < 16) × (object < 16) },
}

impl PairAt {
    // As a function, for a chain over positions: a closure hands on what a function requires, and not a ghost field.
    pub fn new(position: usize, object: usize) -> PairAt
        requires { (position < 16) × (object < 16) }
        ensures { (result.position ≡ position) × (result.object ≡ object) }
    {
        PairAt { position, object }
    }

    // The pair of object 1 in the same position.
    pub fn initial(self) -> PairAt
        ensures { (result.position ≡ self.position) × (result.object ≡ 0) }
    {
        PairAt::new(self.position, 0)
    }
}

// The counts are of at most 512 sightings, and so are the readings that are summed.
// Two lists and no list of pairs: the rules' tables of counts and of sums are two, and `clear` and `entry` serve both. Nothing compares or prints it.
#[derive(Drop)]
pub struct Table {
    pub count: [i64; SLOTS],
    pub sums: [i64; SLOTS],
    ghost few: { CountTable count },
    ghost small: { SumTable sums },
}

// The place in a table of a face, a position and an object as the list has them. The fields one by one, as the rule has them, and by
// their sizes, as the clause speaks of them.
pub fn slot_of(face: i64, position: i64, object: i64) -> usize
    requires { (nat_abs face ≤ 1) × (((1 ≤ nat_abs position) × (nat_abs position ≤ 16)) × ((1 ≤ nat_abs object) × (nat_abs object ≤ 16))) }
    ensures place { result ≡ slot (nat_abs face) (nat_abs position - 1) (nat_abs object - 1) }
    ensures inside { result < 512 }
{
    let f = exact::magnitude(face) as usize;
    let p = exact::magnitude(position) as usize;
    let o = exact::magnitude(object) as usize;
    PLACES * f + OBJECTS * (p - 1) + (o - 1)
}

// What a part of the table has of a face and a pair. The face last, so that the two faces share the place of the pair.
fn entry(part: &[i64; SLOTS], f: usize, at: PairAt) -> i64
    requires { f < 2 }
    ensures { result ≡ entry part.now f at.position at.object }
{
    part[OBJECTS * at.position + at.object + PLACES * f]
}

// Clears from a part of the table what has a reason.
fn clear(why: &[u8; PLACES], part: &mut [i64; SLOTS])
    ensures { part.new ≡ cleared why.now part.old }
{
    for k in 0..SLOTS {
        if why[k % PLACES] != 0 {
            part[k] = 0;
        }
    }
}

impl Table {
    pub fn new() -> Table
        ensures { (result.count ≡ replicate 512 (pos 0)) × (result.sums ≡ replicate 512 (pos 0)) }
    {
        Table {
            count: [0; SLOTS],
            sums: [0; SLOTS],
        }
    }

    // Fills an empty table from a list: a sighting is counted where its own face, position and object say. The caller lends the table, since one that is made
    // here would be copied out.
    pub fn tally(&mut self, sightings: &SoundSightings)
        requires { (self.old.count ≡ replicate 512 (pos 0)) × (self.old.sums ≡ replicate 512 (pos 0)) }
        ensures { (self.new.count ≡ counts (book_of sightings.now.lists)) × (self.new.sums ≡ readings (book_of sightings.now.lists)) }
    {
        let lists = sightings.lists;
        for (h, position) in lists.position.iter().enumerate() {
            let k = slot_of(lists.face[h], *position, lists.object[h]);
            self.count[k] += 1;
            self.sums[k] += lists.reading[h];
        }
    }

    // How many left sightings there are of a pair, and how many right ones. Four methods, each one call of `entry`: with the face passed, a number, each would
    // ask that it is below 2, and be no shorter to call.
    pub fn left_count(&self, at: PairAt) -> i64
        ensures { result ≡ entry self.now.count 0 at.position at.object }
    {
        entry(&self.count, 0, at)
    }

    pub fn right_count(&self, at: PairAt) -> i64
        ensures { result ≡ entry self.now.count 1 at.position at.object }
    {
        entry(&self.count, 1, at)
    }

    // What they read: L and R, where there is one of each.
    pub fn left_reading(&self, at: PairAt) -> i64
        ensures { result ≡ L self.now.sums at.position at.object }
    {
        entry(&self.sums, 0, at)
    }

    pub fn right_reading(&self, at: PairAt) -> i64
        ensures { result ≡ R self.now.sums at.position at.object }
    {
        entry(&self.sums, 1, at)
    }

    // The object was sighted in the position, by either face.
    pub fn seen(&self, at: PairAt) -> bool
        ensures { result ≡ seen self.now.count at.position at.object }
    {
        0 < self.left_count(at) + self.right_count(at)
    }

    // Clears what has a reason: the table is then that of the list without it.
    pub fn clear(&mut self, why: &[u8; PLACES])
        ensures { (self.new.count ≡ cleared why.now self.old.count) × (self.new.sums ≡ cleared why.now self.old.sums) }
    {
        clear(why, &mut self.count);
        clear(why, &mut self.sums);
    }
}
