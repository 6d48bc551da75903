// Reading a file's bytes into tables.
ghost use Rattle.file.specs.Accepted.{Reads};

use crate::fill::fill;
use crate::formulas::Formulas;
use crate::layout::{layout, part};
use crate::refusal::{Refusal, Section};
use crate::sequences::Sequences;
use crate::tables::Tables;
use psl::entry::Condition;
use table::table::Table;

// The tables that the bytes spell.
pub fn read_tables(bytes: &[u8]) -> Result<Tables, Refusal>
    ensures { Reads bytes.now result }
{
    let counts = layout(bytes)?;
    let second = 2 + 5 * counts.conditions;
    let third = second + 2 + 5 * counts.sequences;
    let conditions = fill(
        part(bytes, 0, counts.conditions),
        Section::Conditions,
        2,
        Table::new(Condition::True),
    )?;
    let sequences = fill(
        part(bytes, second, counts.sequences),
        Section::Sequences,
        second + 2,
        Sequences::new(counts.conditions),
    )?;
    let formulas = fill(
        part(bytes, third, counts.formulas),
        Section::Formulas,
        third + 2,
        Formulas::new(counts.conditions, counts.sequences),
    )?;
    Ok(Tables {
        conditions,
        sequences: sequences.entries,
        sizes: sequences.sizes,
        formulas: formulas.entries,
    })
}
