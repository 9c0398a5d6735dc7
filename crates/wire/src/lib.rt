// Document 01, "The set as bytes": a set is read from bytes. specs/ says what that means.
#![tactic(auto)]

pub mod kinds;
mod numbers;
pub mod reading;
pub mod records;

pub use kinds::Kind;
pub use reading::read_into;
pub use records::{read_record, rest};
