// The run record: each stretch of same letters in one row.
#![tactic(auto)]

pub mod run;
pub mod runs;
