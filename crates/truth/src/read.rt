// Reading a record into a truth table.
ghost use Rattle.std.specs.Prelude.{◌≡◌, ℕ, ◌<◌, ◌≤◌, map, length};
ghost use Rattle.letter.specs.Full.{means};
ghost use Rattle.psl.specs.Named.{Like};
ghost use Rattle.psl.specs.Syntax.{atom};
ghost use Rattle.truth.specs.Answer.{Read};
ghost use Rattle.truth.specs.Rows.{letter_of, named, row_at};

use crate::cell::{cell, is_top};
use crate::row::{MOST_CONDITIONS, ROW};
use bits::flags;
use letter::full::Full;
use letter::kind::Kind;
use psl::entry::Condition;
use record::record::Record;

// The bytes of a table: a row for each of 512 letters.
pub const TABLE: usize = 16896;

// Writes the row of a letter, and its mirror's: first what they tell of the condition false, then condition after condition.
// Stays two slices, `own` and `other`, here and below: both are written, crosswise at each flag, so a struct of both would be taken apart at once.
// Stays bytes, whose length a contract tells, since a rule of the project has the caller lend them.
fn write_letter<K: Kind>(letter: &Full<K>, entries: &[Condition], own: &mut [u8], other: &mut [u8])
    requires few { length entries.now ≤ 256 }
    requires len { length own.old ≡ 33 }
    requires len_other { length other.old ≡ 33 }
    ensures items { Like atom (named entries.now) (letter_of own.new other.new) (means K.Kind.atoms K.Kind.mirrored letter.now) }
    ensures len { length own.new ≡ length own.old }
    ensures len_other { length other.new ≡ length other.old }
{
    let mirror = letter.mirror();
    flags::fill(own, is_top(letter));
    flags::fill(other, is_top(&mirror));
    for (n, entry) in entries.iter().enumerate() {
        let flag = cell(letter, *entry, own, other);
        let mirror_flag = cell(&mirror, *entry, other, own);
        flags::put(own, n, flag);
        flags::put(other, n, mirror_flag);
    }
}

// Writes the rows of place k.
fn write_place<K: Kind>(
    letter: &Full<K>,
    entries: &[Condition],
    k: usize,
    own: &mut [u8],
    other: &mut [u8],
)
    requires few { length entries.now ≤ 256 }
    requires place { k < 512 }
    requires len { 16896 ≤ length own.old }
    requires len_other { 16896 ≤ length other.old }
    ensures items { Like atom (named entries.now) (letter_of (row_at own.new k) (row_at other.new k)) (means K.Kind.atoms K.Kind.mirrored letter.now) }
    ensures same { (j : ℕ) → j < k → row_at own.new j ≡ row_at own.old j }
    ensures same_other { (j : ℕ) → j < k → row_at other.new j ≡ row_at other.old j }
    ensures len { length own.new ≡ length own.old }
    ensures len_other { length other.new ≡ length other.old }
{
    let from = k * ROW;
    write_letter(
        letter,
        entries,
        &mut own[from..from + ROW],
        &mut other[from..from + ROW],
    );
}

// Writes which conditions each letter of the record satisfies, and which its mirror does; answers the number of letters,
// or nothing if there are more than 256 conditions or a table is too short.
pub fn read<R: Record>(
    record: &mut R,
    entries: &[Condition],
    own: &mut [u8],
    other: &mut [u8],
) -> Option<usize>
    ensures value { Read entries.now (map (means R.Letter.Kind.atoms R.Letter.Kind.mirrored) (R.Record.content «record».old).letters) own.new other.new result }
    ensures same { «record».new ≡ «record».old }
    ensures len { length own.new ≡ length own.old }
    ensures len_other { length other.new ≡ length other.old }
{
    if entries.len() > MOST_CONDITIONS || own.len() < TABLE || other.len() < TABLE {
        return None;
    }
    let count = record.count();
    for k in 0..count {
        if let Ok(letter) = record.letter(k) {
            write_place(&letter, entries, k, own, other);
        }
    }
    Some(count)
}
