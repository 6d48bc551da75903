// Property files as tables, each with what comes of reading it.
#![tactic(auto)]

#[cfg(test)]
mod entries;
#[cfg(test)]
mod files;
#[cfg(test)]
mod layout;
#[cfg(test)]
mod places;
#[cfg(test)]
mod sizes;
