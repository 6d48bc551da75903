// What any record can do, proved once for all of them.
ghost use Rattle.std.specs.Prelude.{◌≡◌, length};
ghost use Rattle.letter.specs.Full.{full};
ghost use Rattle.record.specs.Recorded.{with_if_fits};

use crate::record::Record;
use letter::full::Tag;
use letter::kind::Kind;

// Adds a letter, and adds it again, each time if it fits; tells how many letters there are then.
pub fn add_twice<K: Kind, R: Record<Letter = K>>(record: &mut R, tag: Tag, letter: K) -> usize
    ensures value { result ≡ length (R.Record.content «record».new).letters }
    ensures items { R.Record.content «record».new ≡ with_if_fits (with_if_fits (R.Record.content «record».old) (full tag letter)) (full tag letter) }
{
    let _ = record.add(tag, letter);
    let _ = record.add(tag, letter);
    record.count()
}
