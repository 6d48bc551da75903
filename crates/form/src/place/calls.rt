// What a form place is asked.
#![tactic(auto, unfolding(crate::specs::Place::form_conditions, crate::specs::Place::form_sequences, crate::specs::Place::form_formulas, crate::specs::Place::form_root, crate::specs::Place::source), using(crate::proofs::Made::known))]

ghost use Rattle.std.specs.Prelude.{◌≡◌, ◌<◌, [], ◌∷◌, length};
ghost use Rattle.answer.specs.Questions.{Call};
ghost use Rattle.psl.specs.declared.entry.Condition.TheVariants.{True};
ghost use Rattle.psl.specs.declared.entry.Sequence.TheVariants.{Condition as Is};
ghost use Rattle.psl.specs.declared.entry.Formula.TheVariants.{Strong, Weak};
ghost use Rattle.file.specs.Operands.{condition_names, sequence_names, formula_names};
ghost use Rattle.property.specs.Place.{conditions_of, sequences_of, formulas_of};
ghost use Rattle.form.specs.Named.{AllNamed};
ghost use Rattle.form.specs.Limits.{questions};
ghost use Rattle.form.specs.Met.{LeastClosed, met};
ghost use Rattle.form.specs.Origins.{FromImages};
ghost use Rattle.form.specs.Place.{form_conditions, form_sequences, form_formulas, form_root, form_tree, source, MadeFrom, Stands, Agrees};

use crate::draft::{Draft, Rooted};
use crate::place::Form;
use crate::refusal::Refusal;
use crate::rewrite::form_of;
use property::place::Property;
use psl::entry::{Condition, Formula, Sequence};
use table::table::Table;

impl Form {
    // The weak condition true, which counts as made from a new property place.
    pub fn new() -> Form
        ensures conditions { form_conditions result ≡ True ∷ [] }
        ensures sequences { form_sequences result ≡ [] }
        ensures formulas { form_formulas result ≡ Weak 0 ∷ [] }
        ensures root { form_root result ≡ 0 }
        ensures source { (conditions_of (source result) ≡ True ∷ []) × (sequences_of (source result) ≡ []) × (formulas_of (source result) ≡ Weak 0 ∷ []) }
    {
        Form {
            property: Property::new(),
            rooted: Rooted {
                draft: Draft {
                    conditions: Table::of(&[Condition::True], Condition::True),
                    sequences: Table::new(Sequence::Empty),
                    formulas: Table::of(&[Formula::Weak(0)], Formula::Weak(0)),
                },
                root: 0,
            },
        }
    }

    // Makes the form of the property; a refusal keeps the one that is there.
    pub fn remove_clocks(&mut self, property: &Property) -> Result<(), Refusal>
        ensures made { Call (questions property.now) (λ _. MadeFrom property.now) self.old result self.new }
        ensures met { LeastClosed property.now (met property.now) }
    {
        *self = Form {
            rooted: form_of(property)?,
            property: *property,
        };
        Ok(())
    }

    // Stays: a call for each section, one line over its table; a caller names the section, and with it the type of its entries.

    // All conditions, each of which names what it may.
    pub fn conditions(&self) -> &[Condition]
        ensures value { result.now ≡ form_conditions self.now }
        ensures names { AllNamed condition_names True result.now }
    {
        self.rooted.draft.conditions.as_slice()
    }

    // All sequences, each of which names what it may.
    pub fn sequences(&self) -> &[Sequence]
        ensures value { result.now ≡ form_sequences self.now }
        ensures names { AllNamed (sequence_names (length (form_conditions self.now))) (Is 0) result.now }
    {
        self.rooted.draft.sequences.as_slice()
    }

    // All formulas, each of which names what it may.
    pub fn formulas(&self) -> &[Formula]
        ensures value { result.now ≡ form_formulas self.now }
        ensures names { AllNamed (formula_names (length (form_conditions self.now)) (length (form_sequences self.now))) (Strong 0) result.now }
    {
        self.rooted.draft.formulas.as_slice()
    }

    // The number of the formula that the form is: the rewriting of its source, or what says the same on every word.
    pub fn root(&self) -> u16
        ensures value { result ≡ form_root self.now }
        ensures there { result < length (form_formulas self.now) }
        ensures stands { Stands self.now }
        ensures agrees { Agrees self.now }
        ensures images { FromImages (form_tree self.now) }
    {
        self.rooted.root
    }
}
