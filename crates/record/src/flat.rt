// The flat record: a row for each letter.
ghost use Rattle.std.specs.Prelude.{◌≡◌, min, length};
ghost use Rattle.record.specs.Rows.{flat_content};

use crate::record::{MOST_LETTERS, Record};
use crate::refusal::Refusal;
use letter::full::{Full, Tag};
use letter::kind::Kind;

// The letters stand in the first `count` of the caller's rows, of which the first 512 at most are used.
// Nothing is asked of the two: a count that is too large is cut to the rows there are.
// Stays a slice with a count: the rows are the caller's memory, and a record keeps no invariant over them, by rules of the project.
#[derive(Drop)]
pub struct Flat<'a, K> {
    rows: &'a mut [Full<K>],
    count: usize,
}

impl<'a, K: Kind> Flat<'a, K> {
    // An empty record.
    // Stays beside the run record's `new` and `resume`: each speaks of its own rows, and what is alike of records is their trait.
    pub fn new(rows: &'a mut [Full<K>]) -> Flat<'a, K>
        ensures made { flat_content result.count result.rows.now ≡ flat_content 0 rows.old }
    {
        Flat { rows, count: 0 }
    }

    // The record of the letters that the first `count` rows hold already.
    pub fn resume(rows: &'a mut [Full<K>], count: usize) -> Flat<'a, K>
        ensures made { flat_content result.count result.rows.now ≡ flat_content count rows.old }
    {
        Flat { rows, count }
    }
}

impl<'a, K: Kind> Record for Flat<'a, K> {
    type Letter = K;

    ghost content = { λ s. flat_content s.count s.rows.now };

    fn count(&mut self) -> usize {
        self.count.min(MOST_LETTERS).min(self.rows.len())
    }

    fn letter(&mut self, place: usize) -> Result<Full<K>, Refusal> {
        if place < self.count() {
            Ok(self.rows[place])
        } else {
            Err(Refusal::NoPlace)
        }
    }

    fn add(&mut self, tag: Tag, letter: K) -> Result<(), Refusal> {
        let count = self.count();
        if count == MOST_LETTERS || count == self.rows.len() {
            return Err(Refusal::DoesNotFit);
        }
        self.rows[count] = Full::of(tag, letter);
        self.count = count + 1;
        Ok(())
    }
}
