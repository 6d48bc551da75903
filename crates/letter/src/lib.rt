// Letters: the interface of letter kinds, wire letters, simulator letters, and full letters over any kind.
#![tactic(auto)]

mod atoms;
pub mod full;
pub mod kind;
pub mod simulated;
pub mod value;
pub mod wire;
