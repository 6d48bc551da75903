// Records of letters: what the interface promises, the flat record, and what any record can do.
#![tactic(auto)]

pub mod flat;
pub mod record;
pub mod refusal;
pub mod twice;
