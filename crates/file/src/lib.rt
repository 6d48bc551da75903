// Property files: the questions put to them, their refusals, and the tables that an accepted one spells.
#![tactic(auto)]

mod conditions;
mod entry;
mod fill;
mod formulas;
mod layout;
mod raw;
pub mod read;
pub mod refusal;
mod sequences;
pub mod tables;
