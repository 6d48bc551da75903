// The tables of a form.
ghost use Rattle.std.specs.Prelude.{length};
ghost use Rattle.psl.specs.declared.entry.Condition.TheVariants.{True};
ghost use Rattle.psl.specs.declared.entry.Sequence.TheVariants.{Condition as Is};
ghost use Rattle.psl.specs.declared.entry.Formula.TheVariants.{Strong};
ghost use Rattle.file.specs.Operands.{condition_names, sequence_names, formula_names};
ghost use Rattle.table.specs.Rows.{rows_of};
ghost use Rattle.form.specs.Named.{AllNamed};

use psl::entry::{Condition, Formula, Sequence};
use table::table::Table;

// A form in the making: each entry names what it may, since operands stand before the entries that name them.
#[derive(Clone, Copy)]
pub struct Draft {
    pub(crate) conditions: Table<Condition, 256>,
    pub(crate) sequences: Table<Sequence, 256>,
    pub(crate) formulas: Table<Formula, 256>,
    ghost conditions_named: { AllNamed condition_names True (rows_of conditions) },
    ghost sequences_named: { AllNamed (sequence_names (length (rows_of conditions))) (Is 0) (rows_of sequences) },
    ghost formulas_named: { AllNamed (formula_names (length (rows_of conditions)) (length (rows_of sequences))) (Strong 0) (rows_of formulas) },
}

// A draft, and the number of the formula that it makes.
#[derive(Clone, Copy)]
pub struct Rooted {
    pub(crate) draft: Draft,
    pub(crate) root: u16,
}
