// Properties as tables, each with what comes of removing its clocks.
#![tactic(auto)]

#[cfg(test)]
mod counts;
#[cfg(test)]
mod files;
#[cfg(test)]
mod limits;
