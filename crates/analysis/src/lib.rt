// Document 01's two tests of a set as bytes; the three demands of what they answer. specs/ says what each function answers.
#![tactic(auto)]

pub mod bytes;

pub use bytes::{exact_of_bytes, superposition_of_bytes};
