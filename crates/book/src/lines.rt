// The lines of a station's listing, written into a lent buffer: the STA line, and an O line for each object seen.
// Each function asks for the room of its own lines, so each says how much.
ghost use Rattle.std.specs.Prelude.{◌≡◌, ◌+◌, ◌<◌, ◌≤◌, length};
ghost use Rattle.text.specs.Written.{Wrote, Puts, in_order};
ghost use Rattle.book.specs.Listing.{objects_seen, object_line, means_lines};

use page::lines;
use station::OBJECTS;
use text::writer::Writer;

// What `station` answers: the direction and the number of pairs of each object.
// Two lists and no list of pairs: `station` is lent them so, as C lends them.
#[derive(Clone, Copy, Debug, PartialEq, Eq)]
pub struct Means {
    pub directions: [i64; OBJECTS],
    pub pairs: [i64; OBJECTS],
}

impl Means {
    // How many objects have a pair.
    fn objects_seen(&self) -> u64
        ensures { result ≡ objects_seen self.now.pairs 16 }
    {
        self.pairs.iter().filter(|p| 0 < **p).count() as u64
    }

    // The line of object j + 1, where it has a pair: O, object, direction, P.
    fn put_object(&self, w: &mut Writer, j: usize)
        requires { (w.old.at + 68 ≤ length w.old.out.now) × (j < 16) }
        ensures { Puts w.old (object_line self.now.directions self.now.pairs j) 68 w.new }
    {
        if 0 < self.pairs[j] {
            lines::put_numbered(w, b'O', j as u64 + 1, self.directions[j], self.pairs[j]);
        }
    }

    fn put_objects(&self, w: &mut Writer)
        requires { w.old.at + 1088 ≤ length w.old.out.now }
        ensures { Puts w.old (in_order 16 (object_line self.now.directions self.now.pairs)) 1088 w.new }
    {
        for j in 0..OBJECTS {
            self.put_object(w, j);
        }
    }

    // The listing of an accepted station, from the start of the buffer.
    pub fn put(&self, sightings: u64, out: &mut [u8]) -> usize
        requires { 1136 ≤ length out.old }
        ensures { Wrote out.old 0 (means_lines sightings self.now.directions self.now.pairs) out.new result }
    {
        let mut w = Writer { out, at: 0 };
        lines::put_heading(&mut w, b"STA", sightings, self.objects_seen());
        self.put_objects(&mut w);
        w.at
    }
}
