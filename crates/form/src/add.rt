// Entries added to a form in the making; each tells its number.
ghost use Rattle.std.specs.Prelude.{◌≡◌, ℕ, ◌+◌, ◌*◌, ◌<◌, ◌≤◌, true, length, slice_index_or};
ghost use Rattle.psl.specs.Syntax.{falsity, condition};
ghost use Rattle.psl.specs.Removal.{unclock_sequence};
ghost use Rattle.psl.specs.Table.{condition_of, conditions, sequence_of, sequences};
ghost use Rattle.file.specs.Operands.{condition_names, sequence_names, formula_names};
ghost use Rattle.form.specs.Draft.{conditions_in, sequences_in, formulas_in, ConditionIs, SequenceIs, Grows, AddedCondition, AddedSequence, AddedFormula};

use crate::draft::Draft;
use psl::entry::{Condition, Formula, Sequence};

impl Draft {
    // Stays: one line for each table over its own push, since entries of each name other tables; a trait for the three is no plainer.
    pub(crate) fn add_condition(&mut self, e: Condition) -> u16
        requires room { length (conditions_in self.old) < 256 }
        requires names { condition_names (length (conditions_in self.old)) e ≡ true }
        ensures { AddedCondition self.old self.new e result }
    {
        self.conditions.push(e).unwrap() as u16
    }

    pub(crate) fn add_sequence(&mut self, e: Sequence) -> u16
        requires room { length (sequences_in self.old) < 256 }
        requires names { sequence_names (length (conditions_in self.old)) (length (sequences_in self.old)) e ≡ true }
        ensures { AddedSequence self.old self.new e result }
    {
        self.sequences.push(e).unwrap() as u16
    }

    pub(crate) fn add_formula(&mut self, e: Formula) -> u16
        requires room { length (formulas_in self.old) < 256 }
        requires names { formula_names (length (conditions_in self.old)) (length (sequences_in self.old)) (length (formulas_in self.old)) e ≡ true }
        ensures { AddedFormula self.old self.new e result }
    {
        self.formulas.push(e).unwrap() as u16
    }

    // The sequence that waits for the clock c, where b holds too: {not c}[*];{c and b}.
    pub(crate) fn tick(&mut self, c: u16, b: u16) -> u16
        requires clock { c < length (conditions_in self.old) }
        requires under { b < length (conditions_in self.old) }
        requires room { (length (conditions_in self.old) + 2 ≤ 256) × (length (sequences_in self.old) + 4 ≤ 256) }
        ensures grows { Grows self.old self.new }
        ensures is { SequenceIs self.new result (unclock_sequence (slice_index_or (conditions (conditions_in self.old)) c falsity) (condition (slice_index_or (conditions (conditions_in self.old)) b falsity))) }
        ensures counts { (length (conditions_in self.new) ≡ length (conditions_in self.old) + 2) × (length (sequences_in self.new) ≡ length (sequences_in self.old) + 4)
            × (length (formulas_in self.new) ≡ length (formulas_in self.old)) }
    {
        let idle = self.add_condition(Condition::Not(c));
        let hit = self.add_condition(Condition::And(c, b));
        let wait = self.add_sequence(Sequence::Condition(idle));
        let waits = self.add_sequence(Sequence::Star(wait));
        let last = self.add_sequence(Sequence::Condition(hit));
        self.add_sequence(Sequence::Concat(waits, last))
    }
}
