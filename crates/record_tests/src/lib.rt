// Tests of letters and records, as tables: no code of their own.
#![tactic(auto)]

#[cfg(test)]
mod flat;
#[cfg(test)]
mod full;
#[cfg(test)]
mod letters;
#[cfg(test)]
mod runs;
