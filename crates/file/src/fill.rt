// Reading the entries of a section into its table, whichever section it is.
ghost use Rattle.std.specs.Prelude.{◌≡◌, ℕ, ◌+◌, ◌*◌, ◌<◌, ◌≤◌, List, length};
ghost use Rattle.file.specs.Rules.{Rules};
ghost use Rattle.file.specs.File.{raws};
ghost use Rattle.file.specs.Filling.{Takes, Fills};

use crate::raw::{Raw, wide};
use crate::refusal::{Reason, Refusal, Section};

// A section's table, to which entries are added one by one.
pub(crate) trait Filling: Copy {
    type Entry;

    ghost rules: { Self → Rules Self.Entry };

    ghost filled: { Self → List Self.Entry };

    // Takes the next entry, or says the first no to it.
    fn take_entry(&mut self, raw: Raw) -> Result<(), Reason>
        requires { length (filled self.old) < 64 }
        ensures { Takes (rules self.old) (filled self.old) raw result (rules self.new) (filled self.new) };
}

// The table with the entries that `part` spells, the first at the offset `at`.
#[tactic(auto, using(crate::proofs::Entries::ends))]
pub(crate) fn fill<F: Filling>(
    part: &[u8],
    section: Section,
    at: usize,
    mut table: F,
) -> Result<F, Refusal>
    requires room { 5 * length (F.Filling.filled table) + length part.now ≤ 320 }
    requires near { at ≤ 1000 }
    ensures { Fills F.Filling.rules F.Filling.filled section at table (raws part.now) result }
{
    let mut rest = part;
    let mut offset = at;
    // Stays: a rule of the project has an entry read by a pattern that names its five bytes, with the later entries as the rest.
    while let [kind, a1, a0, b1, b0, tail @ ..] = rest {
        let raw = Raw {
            kind: *kind,
            a: wide(*a1, *a0),
            b: wide(*b1, *b0),
        };
        table.take_entry(raw).map_err(|reason| Refusal {
            reason,
            section,
            offset,
        })?;
        offset += 5;
        rest = tail;
    }
    Ok(table)
}
