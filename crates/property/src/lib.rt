// The property place, which keeps an accepted property.
#![tactic(auto)]

pub mod place;
