// What a property place is asked.
#![tactic(auto, unfolding(crate::specs::Place::conditions_of, crate::specs::Place::sequences_of, crate::specs::Place::formulas_of), using(crate::proofs::Held::known))]

ghost use Rattle.std.specs.Prelude.{◌≡◌, ◌-◌, ◌≤◌, true, [], ◌∷◌, map, length, IfSome, Some};
ghost use Rattle.std.specs.List.{slice_get};
ghost use Rattle.answer.specs.Questions.{Call};
ghost use Rattle.psl.specs.Table.{size};
ghost use Rattle.psl.specs.declared.entry.Condition.TheVariants.{True};
ghost use Rattle.psl.specs.declared.entry.Formula.TheVariants.{Weak};
ghost use Rattle.file.specs.Operands.{condition_names, sequence_names, formula_names};
ghost use Rattle.file.specs.Sizes.{sizes as sizes_of};
ghost use Rattle.file.specs.Rules.{condition_rules, sequence_rules, formula_rules};
ghost use Rattle.file.specs.File.{questions};
ghost use Rattle.file.specs.Accepted.{inspected};
ghost use Rattle.property.specs.Place.{conditions_of, sequences_of, formulas_of, sequence_trees, HoldsFile};

use crate::place::Property;
use file::read::read_tables;
use file::refusal::Refusal;
use file::tables::Tables;
use psl::entry::{Condition, Formula, Sequence};
use table::table::Table;

impl Property {
    // The weak formula on the condition true.
    pub fn new() -> Property
        ensures conditions { conditions_of result ≡ True ∷ [] }
        ensures sequences { sequences_of result ≡ [] }
        ensures formulas { formulas_of result ≡ Weak 0 ∷ [] }
    {
        Property {
            tables: Tables {
                conditions: Table::of(&[Condition::True], Condition::True),
                sequences: Table::new(Sequence::Empty),
                sizes: Table::new(0),
                formulas: Table::of(&[Formula::Weak(0)], Formula::Weak(0)),
            },
        }
    }

    // Takes the property that the bytes spell; a refusal keeps the one that is there.
    pub fn read(&mut self, bytes: &[u8]) -> Result<(), Refusal>
        ensures { Call (questions bytes.now) (λ _. HoldsFile bytes.now) self.old result self.new }
    {
        self.tables = read_tables(bytes)?;
        Ok(())
    }

    // Stays: calls for each section, one line each over its table; a caller names the section, and with it the type of its entries.
    pub fn condition_count(&self) -> usize
        ensures value { result ≡ length (conditions_of self.now) }
        ensures low_bound { 1 ≤ result }
        ensures high_bound { result ≤ 64 }
    {
        self.tables.conditions.len()
    }

    pub fn sequence_count(&self) -> usize
        ensures value { result ≡ length (sequences_of self.now) }
        ensures high_bound { result ≤ 64 }
    {
        self.tables.sequences.len()
    }

    pub fn formula_count(&self) -> usize
        ensures value { result ≡ length (formulas_of self.now) }
        ensures low_bound { 1 ≤ result }
        ensures high_bound { result ≤ 64 }
    {
        self.tables.formulas.len()
    }

    // Condition `i`, whose operands name what they may.
    pub fn condition(&self, i: usize) -> Option<Condition>
        ensures value { result ≡ slice_get (conditions_of self.now) i }
        ensures names { IfSome result (λ e. condition_names i e ≡ true) }
    {
        self.tables.conditions.get(i)
    }

    // Sequence `i`, whose operands name what they may.
    pub fn sequence(&self, i: usize) -> Option<Sequence>
        ensures value { result ≡ slice_get (sequences_of self.now) i }
        ensures names { IfSome result (λ e. sequence_names (length (conditions_of self.now)) i e ≡ true) }
    {
        self.tables.sequences.get(i)
    }

    // The size of sequence `i`: of its entry, and of the tree that it denotes.
    pub fn sequence_size(&self, i: usize) -> Option<u16>
        ensures value { result ≡ slice_get (sizes_of (sequences_of self.now)) i }
        ensures tree { result ≡ slice_get (map size (sequence_trees self.now)) i }
        ensures high_bound { IfSome result (λ z. z ≤ 240) }
    {
        self.tables.sizes.get(i)
    }

    // Formula `i`, whose operands name what they may.
    pub fn formula(&self, i: usize) -> Option<Formula>
        ensures value { result ≡ slice_get (formulas_of self.now) i }
        ensures names { IfSome result (λ e. formula_names (length (conditions_of self.now)) (length (sequences_of self.now)) i e ≡ true) }
    {
        self.tables.formulas.get(i)
    }

    // All conditions, each fit to stand after those before it.
    pub fn conditions(&self) -> &[Condition]
        ensures value { result.now ≡ conditions_of self.now }
        ensures few { length result.now ≤ 64 }
        ensures fine { inspected condition_rules [] result.now ≡ true }
    {
        self.tables.conditions.as_slice()
    }

    // All sequences, each fit to stand after those before it.
    pub fn sequences(&self) -> &[Sequence]
        ensures value { result.now ≡ sequences_of self.now }
        ensures few { length result.now ≤ 64 }
        ensures fine { inspected (sequence_rules (length (conditions_of self.now))) [] result.now ≡ true }
    {
        self.tables.sequences.as_slice()
    }

    // All formulas, each fit to stand after those before it.
    pub fn formulas(&self) -> &[Formula]
        ensures value { result.now ≡ formulas_of self.now }
        ensures few { length result.now ≤ 64 }
        ensures fine { inspected (formula_rules (length (conditions_of self.now)) (length (sequences_of self.now))) [] result.now ≡ true }
    {
        self.tables.formulas.as_slice()
    }

    // The property itself: the last formula.
    pub fn root(&self) -> Formula
        ensures { slice_get (formulas_of self.now) (length (formulas_of self.now) - 1) ≡ Some result }
    {
        self.formulas()[self.formula_count() - 1]
    }
}
