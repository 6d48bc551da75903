// Verdicts of properties and of clock-free forms over the letters of any record, and the matches of a sequence.
#![tactic(auto)]

pub mod refusal;
pub mod verdict;
