// The field lists by themselves: their lengths, and the range of each field.
ghost use Rattle.std.specs.Prelude.{◌≡◌, length, MatchResult, Ok, Err};
ghost use Rattle.station.specs.Sightings.{lengths_fit, out_of_range};
ghost use Rattle.station.specs.Bounds.{OneLength, InRange, book_of, opening};
ghost use Rattle.station.specs.Replies.{fields_reply};

use crate::MOST;
use reply::Refusal;

// The sightings of a station: a list for each of their fields.
// Four lists and no list of sightings: C lends them so. They are lent on, so nothing compares or prints them.
#[derive(Clone, Copy)]
pub struct Sightings<'a> {
    pub position: &'a [i64],
    pub object: &'a [i64],
    pub face: &'a [i64],
    pub reading: &'a [i64],
}

// Sightings that have passed both checks: as many as may be, in lists of one length, and each field in its range.
#[derive(Clone, Copy)]
pub struct SoundSightings<'a> {
    pub lists: Sightings<'a>,
    ghost sound: { InRange (book_of lists) },
}

// A sighting's field is out of range. The fields one by one, as the rule has them.
#[tactic(auto, unfolding(crate::specs::Sightings::out_of_range))]
fn out_of_range(position: i64, object: i64, face: i64, reading: i64) -> bool
    ensures { result ≡ out_of_range position object face reading }
{
    exact::outside(1, 16, position)
        || exact::outside(1, 16, object)
        || exact::outside(0, 1, face)
        || exact::outside(0, direction::LAST, reading)
}

impl<'a> Sightings<'a> {
    // 1 to 512 sightings, in lists of one length.
    #[tactic(auto, unfolding(crate::specs::Sightings::lengths_fit))]
    fn fit(&self) -> bool
        ensures { result ≡ lengths_fit (length self.now.position.now) (length self.now.object.now) (length self.now.face.now) (length self.now.reading.now) 16 16 }
    {
        let n = self.position.len();
        1 <= n
            && n <= MOST
            && self.object.len() == n
            && self.face.len() == n
            && self.reading.len() == n
    }

    // Refuses the first sighting with a field out of range, by its ordinal. Not one with `direction::check`, which says why.
    fn check(&self) -> Result<(), Refusal>
        requires { OneLength (book_of self.now) }
        ensures { result ≡ fields_reply (book_of self.now) }
    {
        for (h, position) in self.position.iter().enumerate() {
            if out_of_range(*position, self.object[h], self.face[h], self.reading[h]) {
                return Err(Refusal::Field(h as u64 + 1));
            }
        }
        Ok(())
    }

    // The sightings as sound ones, or why they are refused: by their lengths, and then by a field.
    pub fn checked(&self) -> Result<SoundSightings<'a>, Refusal>
        ensures { MatchResult result
            (λ sound. (sound.lists ≡ self.now) × (opening (book_of self.now) ≡ Ok tt))
            (λ why. opening (book_of self.now) ≡ Err why) }
    {
        if !self.fit() {
            return Err(Refusal::Sightings);
        }
        self.check()?;
        Ok(SoundSightings { lists: *self })
    }
}
