// Document 01's types: a set of event stream elements, and the answer of an analysis. specs/ says what they mean.
#![tactic(auto)]

pub mod answers;
pub mod checks;
pub mod elements;
pub mod legal;

pub use answers::{Numbers, Reason, Refusal, Told, Values, Verdict};
pub use elements::{Element, Period, TaskSet};
pub use legal::LegalSet;
