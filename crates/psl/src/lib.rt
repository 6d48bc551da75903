// The language: the entries of tables, and in specs/ what they mean and what follows from it.
#![tactic(auto)]

pub mod entry;
pub mod meaning;
pub mod theory;
