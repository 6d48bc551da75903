// Rows that each hold a stretch of same letters.
ghost use Rattle.std.specs.Prelude.{◌≡◌, ◌≤◌, min, length, take, Some, None};
ghost use Rattle.std.specs.List.{slice_get};
ghost use Rattle.run_record.specs.Runs.{continues, tally as tallied, spread, counted, last_row, Pushes};

use letter::full::Full;
use letter::kind::Kind;
use record::record::MOST_LETTERS;

// The most rows that a run record uses.
pub const MOST_RUNS: usize = 64;

// A letter, and how often it stands there.
#[derive(Clone, Copy, Debug, PartialEq, Eq)]
pub struct Run<L> {
    pub letter: Full<L>,
    pub length: usize,
}

// The rows that count, from the first on, and the number of letters that they are.
#[derive(Clone, Copy)]
pub(crate) struct Counted {
    pub(crate) rows: usize,
    pub(crate) letters: usize,
}

// Stays, rows and how many are in use, here and below: the caller's memory, over which a record keeps no invariant, by rules of the project.

// How many letters the rows are, after `sum` letters that end in `before`, if adds can have left them.
fn tally<K: Kind>(rows: &[Run<K>], before: Option<Full<K>>, sum: usize) -> Option<usize>
    requires few { sum ≤ 512 }
    ensures value { result ≡ tallied K.eq before sum rows.now }
{
    match rows {
        [] => Some(sum),
        [run, rest @ ..] => {
            if run.length == 0 {
                return None;
            }
            if before == Some(run.letter) {
                return None;
            }
            if run.length > MOST_LETTERS - sum {
                return None;
            }
            tally(rest, Some(run.letter), sum + run.length)
        }
    }
}

// The letter at a place of the stretches.
fn find<K: Kind>(rows: &[Run<K>], place: usize) -> Option<Full<K>>
    ensures value { result ≡ slice_get (spread rows.now) place }
{
    match rows {
        [] => None,
        [run, rest @ ..] => {
            if place < run.length {
                Some(run.letter)
            } else {
                find(rest, place - run.length)
            }
        }
    }
}

// The rows that count among the first `used`: none where adds cannot have left them.
pub(crate) fn count_rows<K: Kind>(rows: &mut [Run<K>], used: usize) -> Counted
    ensures within { result.rows ≤ min 64 (length rows.old) }
    ensures items { take result.rows rows.old ≡ counted K.eq (take (min used 64) rows.old) }
    ensures len { tallied K.eq None 0 (take result.rows rows.old) ≡ Some result.letters }
    ensures same { rows.new ≡ rows.old }
{
    let first = used.min(MOST_RUNS).min(rows.len());
    let part: &[Run<K>] = rows;
    match tally(&part[..first], None, 0) {
        Some(letters) => Counted {
            rows: first,
            letters,
        },
        None => Counted {
            rows: 0,
            letters: 0,
        },
    }
}

// The letter at a place of the stretches in the rows that count.
pub(crate) fn letter_at<K: Kind>(rows: &mut [Run<K>], used: usize, place: usize) -> Option<Full<K>>
    ensures value { result ≡ slice_get (spread (counted K.eq (take (min used 64) rows.old))) place }
    ensures same { rows.new ≡ rows.old }
{
    let counted = count_rows(rows, used);
    let part: &[Run<K>] = rows;
    find(&part[..counted.rows], place)
}

// Whether the first rows end in a stretch of this letter.
fn ends_in<K: Kind>(rows: &[Run<K>], used: usize, letter: Full<K>) -> bool
    requires within { used ≤ length rows.now }
    ensures value { result ≡ continues K.eq (last_row None (take used rows.now)) letter }
{
    used > 0 && rows[used - 1].letter == letter
}

// One letter more, in the last stretch or in a row of its own: how many rows count then, if it fits.
pub(crate) fn push<K: Kind>(rows: &mut [Run<K>], old: Counted, letter: Full<K>) -> Option<usize>
    requires within { old.rows ≤ min 64 (length rows.old) }
    requires sound { tallied K.eq None 0 (take old.rows rows.old) ≡ Some old.letters }
    ensures made { Pushes K.eq old.rows letter rows.old result rows.new }
{
    if old.letters >= MOST_LETTERS {
        return None;
    }
    let used = old.rows;
    if ends_in(rows, used, letter) {
        let last = rows[used - 1];
        rows[used - 1] = Run {
            length: last.length + 1,
            ..last
        };
        return Some(used);
    }
    if used < MOST_RUNS && used < rows.len() {
        rows[used] = Run { letter, length: 1 };
        return Some(used + 1);
    }
    None
}
