// The section of the conditions.
ghost use Rattle.file.specs.Kinds.{condition_spelled};
ghost use Rattle.file.specs.Operands.{condition_names};
ghost use Rattle.file.specs.Rules.{condition_rules};
ghost use Rattle.table.specs.Rows.{rows_of};

use crate::entry::{Entry, read_entry};
use crate::fill::Filling;
use crate::raw::Raw;
use crate::refusal::Reason;
use crate::tables::Counts;
use psl::entry::Condition;
use table::table::Table;

impl Entry for Condition {
    ghost spelled = { condition_spelled };

    ghost names = { λ before. condition_names before.conditions };

    fn spell(raw: Raw) -> Option<Condition> {
        let Raw { kind, a, b } = raw;
        match kind {
            0 => raw.unused(Condition::True),
            1 => raw.unused(Condition::False),
            2 => raw.unused_b(Condition::Atom(a)),
            3 => raw.unused_b(Condition::Not(a)),
            4 => Some(Condition::And(a, b)),
            _ => None,
        }
    }

    fn names_before(self, before: Counts) -> bool {
        let lower = |a: u16| (a as usize) < before.conditions;
        match self {
            Condition::True | Condition::False => true,
            Condition::Atom(n) => n < 32,
            Condition::Not(a) => lower(a),
            Condition::And(a, b) => lower(a) && lower(b),
        }
    }
}

// The conditions so far.
impl Filling for Table<Condition, 64> {
    type Entry = Condition;

    ghost rules = { λ t. condition_rules };

    ghost filled = { rows_of };

    fn take_entry(&mut self, raw: Raw) -> Result<(), Reason> {
        let before = Counts {
            conditions: self.len(),
            sequences: 0,
            formulas: 0,
        };
        let entry: Condition = read_entry(raw, before)?;
        if before.conditions == 0 && !matches!(entry, Condition::True) {
            return Err(Reason::FirstNotTrue);
        }
        self.push(entry).unwrap();
        Ok(())
    }
}
