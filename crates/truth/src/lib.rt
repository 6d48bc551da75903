// Which conditions each letter of a record satisfies, and which its mirror does.
#![tactic(auto)]

mod cell;
pub mod read;
pub mod row;
