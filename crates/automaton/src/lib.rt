// Sequences followed over truth tables by their automata, for all starts at once.
#![tactic(auto)]

mod advance;
pub mod automata;
mod node;
mod part;
mod placed;
pub mod reach;
mod starts;
mod state;
mod view;
pub mod word;
