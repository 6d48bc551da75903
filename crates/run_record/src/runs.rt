// The run record: a row for each stretch of same letters.
ghost use Rattle.std.specs.Prelude.{◌≡◌, None};
ghost use Rattle.run_record.specs.Runs.{run_content, stretches as stretches_of};

use crate::run::{Run, count_rows, letter_at, push};
use letter::full::{Full, Tag};
use letter::kind::Kind;
use record::record::Record;
use record::refusal::Refusal;

// The letters stand in the first `used` of the caller's rows, of which the first 64 at most are used.
// Nothing is asked of the two: rows in use that adds cannot have left are an empty record.
// Stays a slice with a count: the rows are the caller's memory, and a record keeps no invariant over them, by rules of the project.
#[derive(Drop)]
pub struct Runs<'a, K> {
    rows: &'a mut [Run<K>],
    used: usize,
}

impl<'a, K: Kind> Runs<'a, K> {
    // An empty record.
    // Stays beside the flat record's `new` and `resume`: each speaks of its own rows, and what is alike of records is their trait.
    pub fn new(rows: &'a mut [Run<K>]) -> Runs<'a, K>
        ensures made { run_content K.eq result.used result.rows.now ≡ run_content K.eq 0 rows.old }
    {
        Runs { rows, used: 0 }
    }

    // The record of the letters that the first `used` rows hold already.
    pub fn resume(rows: &'a mut [Run<K>], used: usize) -> Runs<'a, K>
        ensures made { run_content K.eq result.used result.rows.now ≡ run_content K.eq used rows.old }
    {
        Runs { rows, used }
    }

    // The number of stretches of same letters, which are the rows in use: what to hand over to `resume` with the rows.
    pub fn stretches(&mut self) -> usize
        ensures value { result ≡ stretches_of K.eq None (run_content K.eq self.old.used self.old.rows.now).letters }
        ensures same { self.new ≡ self.old }
    {
        let used = self.used;
        count_rows(self.rows, used).rows
    }
}

impl<'a, K: Kind> Record for Runs<'a, K> {
    type Letter = K;

    ghost content = { λ s. run_content K.eq s.used s.rows.now };

    fn count(&mut self) -> usize {
        let used = self.used;
        count_rows(self.rows, used).letters
    }

    fn letter(&mut self, place: usize) -> Result<Full<K>, Refusal> {
        let used = self.used;
        letter_at(self.rows, used, place).ok_or(Refusal::NoPlace)
    }

    fn add(&mut self, tag: Tag, letter: K) -> Result<(), Refusal> {
        let used = self.used;
        let counted = count_rows(self.rows, used);
        self.used = push(self.rows, counted, Full::of(tag, letter)).ok_or(Refusal::DoesNotFit)?;
        Ok(())
    }
}
