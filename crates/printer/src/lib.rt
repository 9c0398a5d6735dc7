// Texts that are printed. specs/ says what each is.
#![tactic(auto)]

pub mod answers;
mod text;

pub use answers::{Lines, ROOM, put_answers};
