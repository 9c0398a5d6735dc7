// What both tests work with: the dates of each place, as numbers.
#![tactic(auto)]

pub mod dates;
#[cfg(test)]
mod tests;
