// Tables of fixed room, which need no memory but their own.
#![tactic(auto)]

pub mod table;
