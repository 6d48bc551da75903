// The interface of records.
ghost use Rattle.std.specs.Prelude.{◌≡◌, ◌≤◌, length};
ghost use Rattle.letter.specs.declared.full.Full.{Full};
ghost use Rattle.letter.specs.Full.{full};
ghost use Rattle.record.specs.Recorded.{Recorded, Reads, Adds, SameIfRefused};

use crate::refusal::Refusal;
use letter::full::{Full, Tag};
use letter::kind::Kind;

// The most letters that a record holds.
pub const MOST_LETTERS: usize = 512;

// Up to 512 letters in order, and a rule that decides from these letters alone whether one more fits.
// Questions take the record for writing too, since its rows are lent to it, and leave it as it was.
pub trait Record {
    type Letter: Kind;

    ghost content: { Self → Recorded (Full Self.Letter) };

    // The number of letters.
    fn count(&mut self) -> usize
        ensures value { result ≡ length (content self.old).letters }
        ensures few { result ≤ 512 }
        ensures same { self.new ≡ self.old };

    // The letter at the place, or a refusal where there is none.
    fn letter(&mut self, place: usize) -> Result<Full<Self::Letter>, Refusal>
        ensures value { Reads place (content self.old) result (content self.new) }
        ensures same { self.new ≡ self.old };

    // Appends the letter, or refuses it if it does not fit.
    fn add(&mut self, tag: Tag, letter: Self::Letter) -> Result<(), Refusal>
        ensures made { Adds (full tag letter) (content self.old) result (content self.new) }
        ensures same { SameIfRefused result self.old self.new };
}
