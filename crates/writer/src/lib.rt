// Document 01, "The set as bytes": a set is written to a lent buffer. specs/ says what that means.
#![tactic(auto)]

mod numbers;
pub mod writing;

pub use writing::write_set;
