// Sets of numbers as the bits of words: sets of places, and flags in lent bytes.
#![tactic(auto)]

pub mod flags;
pub mod places;
pub mod word;
