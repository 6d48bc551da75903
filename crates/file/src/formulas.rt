// The section of the formulas.
ghost use Rattle.std.specs.Prelude.{◌≡◌, []};
ghost use Rattle.file.specs.Kinds.{formula_spelled};
ghost use Rattle.file.specs.Operands.{formula_names};
ghost use Rattle.file.specs.Rules.{formula_rules};
ghost use Rattle.table.specs.Rows.{rows_of};

use crate::entry::{Entry, read_entry};
use crate::fill::Filling;
use crate::raw::Raw;
use crate::refusal::Reason;
use crate::tables::Counts;
use psl::entry::Formula;
use table::table::Table;

impl Entry for Formula {
    ghost spelled = { formula_spelled };

    ghost names = { λ before. formula_names before.conditions before.sequences before.formulas };

    fn spell(raw: Raw) -> Option<Formula> {
        let Raw { kind, a, b } = raw;
        match kind {
            0 => raw.unused_b(Formula::Strong(a)),
            1 => raw.unused_b(Formula::Weak(a)),
            2 => raw.unused_b(Formula::StrongSequence(a)),
            3 => raw.unused_b(Formula::WeakSequence(a)),
            4 => raw.unused_b(Formula::Not(a)),
            5 => Some(Formula::And(a, b)),
            6 => raw.unused_b(Formula::Next(a)),
            7 => Some(Formula::Until(a, b)),
            8 => Some(Formula::Abort(a, b)),
            9 => Some(Formula::Implies(a, b)),
            10 => Some(Formula::At(a, b)),
            _ => None,
        }
    }

    fn names_before(self, before: Counts) -> bool {
        let condition = |a: u16| (a as usize) < before.conditions;
        let sequence = |a: u16| (a as usize) < before.sequences;
        let lower = |a: u16| (a as usize) < before.formulas;
        match self {
            Formula::Strong(a) | Formula::Weak(a) => condition(a),
            Formula::StrongSequence(a) | Formula::WeakSequence(a) => sequence(a),
            Formula::Not(a) | Formula::Next(a) => lower(a),
            Formula::And(a, b) | Formula::Until(a, b) => lower(a) && lower(b),
            Formula::Abort(a, b) | Formula::At(a, b) => lower(a) && condition(b),
            Formula::Implies(a, b) => sequence(a) && lower(b),
        }
    }
}

// The formulas so far, after `conditions` conditions and `sequences` sequences.
#[derive(Clone, Copy)]
pub(crate) struct Formulas {
    conditions: usize,
    sequences: usize,
    pub(crate) entries: Table<Formula, 64>,
}

impl Formulas {
    pub(crate) fn new(conditions: usize, sequences: usize) -> Formulas
        ensures { (result.conditions ≡ conditions) × (result.sequences ≡ sequences) × (rows_of result.entries ≡ []) }
    {
        Formulas {
            conditions,
            sequences,
            entries: Table::new(Formula::Weak(0)),
        }
    }
}

impl Filling for Formulas {
    type Entry = Formula;

    ghost rules = { λ t. formula_rules t.conditions t.sequences };

    ghost filled = { λ t. rows_of t.entries };

    fn take_entry(&mut self, raw: Raw) -> Result<(), Reason> {
        let before = Counts {
            conditions: self.conditions,
            sequences: self.sequences,
            formulas: self.entries.len(),
        };
        let entry = read_entry(raw, before)?;
        self.entries.push(entry).unwrap();
        Ok(())
    }
}
