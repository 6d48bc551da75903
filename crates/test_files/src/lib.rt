// Property files made of rows, which the tests of several crates read.
#![tactic(auto)]

pub mod rows;
