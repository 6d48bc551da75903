// The section of the sequences, whose sizes are told with them.
ghost use Rattle.std.specs.Prelude.{◌≡◌, ℕ, ◌≤◌, [], slice_index};
ghost use Rattle.file.specs.Kinds.{sequence_spelled};
ghost use Rattle.file.specs.Operands.{sequence_names};
ghost use Rattle.file.specs.Rules.{sequence_rules};
ghost use Rattle.file.specs.Sizes.{size_over, sizes as sizes_of};
ghost use Rattle.table.specs.Rows.{rows_of};

use crate::entry::{Entry, read_entry};
use crate::fill::Filling;
use crate::raw::Raw;
use crate::refusal::Reason;
use crate::tables::Counts;
use psl::entry::Sequence;
use table::table::Table;

impl Entry for Sequence {
    ghost spelled = { sequence_spelled };

    ghost names = { λ before. sequence_names before.conditions before.sequences };

    fn spell(raw: Raw) -> Option<Sequence> {
        let Raw { kind, a, b } = raw;
        match kind {
            0 => raw.unused_b(Sequence::Condition(a)),
            1 => Some(Sequence::Concat(a, b)),
            2 => Some(Sequence::Fusion(a, b)),
            3 => Some(Sequence::Either(a, b)),
            4 => Some(Sequence::Both(a, b)),
            5 => raw.unused(Sequence::Empty),
            6 => raw.unused_b(Sequence::Star(a)),
            7 => Some(Sequence::At(a, b)),
            _ => None,
        }
    }

    fn names_before(self, before: Counts) -> bool {
        let condition = |a: u16| (a as usize) < before.conditions;
        let lower = |a: u16| (a as usize) < before.sequences;
        match self {
            Sequence::Condition(a) => condition(a),
            Sequence::Concat(a, b)
            | Sequence::Fusion(a, b)
            | Sequence::Either(a, b)
            | Sequence::Both(a, b) => lower(a) && lower(b),
            Sequence::Empty => true,
            Sequence::Star(a) => lower(a),
            Sequence::At(a, b) => lower(a) && condition(b),
        }
    }
}

// The sequences so far with their sizes, none above 240, after `conditions` conditions.
// Stays two tables, as in `Tables`, which they become.
#[derive(Clone, Copy)]
pub(crate) struct Sequences {
    conditions: usize,
    pub(crate) entries: Table<Sequence, 64>,
    pub(crate) sizes: Table<u16, 64>,
    ghost measured: { rows_of sizes ≡ sizes_of (rows_of entries) },
    ghost small: { (k : ℕ) → slice_index (rows_of sizes) k ≤ 240 },
}

impl Sequences {
    #[tactic(auto, unfolding(crate::specs::Sizes::sizes))]
    pub(crate) fn new(conditions: usize) -> Sequences
        ensures { (result.conditions ≡ conditions) × (rows_of result.entries ≡ []) }
    {
        Sequences {
            conditions,
            entries: Table::new(Sequence::Empty),
            sizes: Table::new(0),
        }
    }

    // The size of sequence `a`, or 0 if there is none.
    #[tactic(auto, using(crate::proofs::Sizes::reads))]
    fn size_at(&self, a: u16) -> u16
        ensures value { result ≡ slice_index (rows_of self.now.sizes) a }
        ensures bound { result ≤ 240 }
    {
        self.sizes.get(a as usize).unwrap_or(0)
    }

    // The size of an entry after these.
    fn size_after(&self, e: Sequence) -> u16
        ensures { result ≡ size_over (rows_of self.now.sizes) e }
    {
        match e {
            Sequence::Condition(_) => 2,
            Sequence::Concat(a, b) | Sequence::Either(a, b) => self.size_at(a) + self.size_at(b),
            Sequence::Fusion(a, b) => {
                let left = self.size_at(a);
                let right = self.size_at(b);
                left + right + left * right
            }
            Sequence::Both(a, b) => self.size_at(a) * self.size_at(b),
            Sequence::Empty => 0,
            Sequence::Star(a) | Sequence::At(a, _) => self.size_at(a),
        }
    }
}

impl Filling for Sequences {
    type Entry = Sequence;

    ghost rules = { λ t. sequence_rules t.conditions };

    ghost filled = { λ t. rows_of t.entries };

    #[tactic(auto, using(crate::proofs::Sizes::more))]
    fn take_entry(&mut self, raw: Raw) -> Result<(), Reason> {
        let before = Counts {
            conditions: self.conditions,
            sequences: self.entries.len(),
            formulas: 0,
        };
        let entry: Sequence = read_entry(raw, before)?;
        let size = self.size_after(entry);
        if size > 240 {
            return Err(Reason::SequenceTooLarge);
        }
        self.entries.push(entry).unwrap();
        self.sizes.push(size).unwrap();
        Ok(())
    }
}
