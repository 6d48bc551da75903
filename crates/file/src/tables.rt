// The plain tables of a property.
use psl::entry::{Condition, Formula, Sequence};
use table::table::Table;

// How many entries of each section there are.
#[derive(Clone, Copy)]
pub struct Counts {
    pub conditions: usize,
    pub sequences: usize,
    pub formulas: usize,
}

// The entries of a property, and beside each sequence its size.
// Stays: `Property::sequences` lends the sequences as a slice of entries, so their sizes stand in a table of their own.
#[derive(Clone, Copy)]
pub struct Tables {
    pub conditions: Table<Condition, 64>,
    pub sequences: Table<Sequence, 64>,
    pub sizes: Table<u16, 64>,
    pub formulas: Table<Formula, 64>,
}
