// The lines of a sighting book, entered into one list for each field.
ghost use Rattle.std.specs.Prelude.{◌≡◌, ◌<◌, ◌≤◌, length, OnOk, IfErr};
ghost use Rattle.reply.specs.declared.Refusal.TheVariants.{Count};
ghost use Rattle.book.specs.Inner.{EnteredAs, put_at};

use reply::Refusal;
use station::MOST;
use text::{MOST_BYTES, MOST_DIGITS, row};

// A book that is too long is refused by its length alone, before there are lists to enter it into.
pub fn check_length(file: &[u8]) -> Result<(), Refusal>
    ensures short { OnOk result (length file.now ≤ 65535) }
    ensures long { IfErr result (λ why. (65535 < length file.now) × (why ≡ Count 0)) }
{
    if MOST_BYTES < file.len() {
        return Err(Refusal::Count(0));
    }
    Ok(())
}

// The fields of sightings, with room for as many as a station takes.
// A list for each field and no list of sightings: `station` is lent them so, as C lends them. Nothing compares or prints them.
#[derive(Drop)]
pub struct Fields {
    pub position: [i64; MOST],
    pub object: [i64; MOST],
    pub face: [i64; MOST],
    pub reading: [i64; MOST],
}

impl Fields {
    pub fn new() -> Fields {
        Fields {
            position: [0; MOST],
            object: [0; MOST],
            face: [0; MOST],
            reading: [0; MOST],
        }
    }

    // A sighting x into place n; nothing, where there is no such place.
    fn enter(&mut self, n: usize, x: &[i64; 4])
        ensures { self.new ≡ put_at self.old n x.now }
    {
        if MOST <= n {
            return;
        }
        self.position[n] = x[0];
        self.object[n] = x[1];
        self.face[n] = x[2];
        self.reading[n] = x[3];
    }

    // All lines of a book that is not too long, each read once; how many there are, or why the book is refused: a line is malformed, or they are too many.
    // Those past the lists' room are read too, since a malformed line comes before a count.
    pub fn read(&mut self, file: &[u8]) -> Result<usize, Refusal>
        requires { length file.now ≤ 65535 }
        ensures { EnteredAs file.now result self.new }
    {
        let mut x = [0; 4];
        let mut start = 0;
        let mut n = 0;
        // A while loop: each line says where the next one starts.
        while start < file.len() {
            let malformed = Refusal::Malformed((n + 1) as u64);
            start = row::read_behind(MOST_DIGITS, file, start, b'S', 4, &mut x).ok_or(malformed)?;
            self.enter(n, &x);
            n += 1;
        }
        if MOST < n {
            return Err(Refusal::Sightings);
        }
        Ok(n)
    }
}
