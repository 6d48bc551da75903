// Clock-free forms: the rewritten tables of a property, and the place that keeps them.
#![tactic(auto)]

mod add;
mod build;
mod count;
mod draft;
mod entries;
mod grid;
mod mark;
mod mark_formula;
mod pair;
pub mod place;
pub mod refusal;
mod rewrite;
mod write;
mod write_formula;
