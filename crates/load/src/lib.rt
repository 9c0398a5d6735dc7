// What every analysis starts with. specs/ says what each function answers.
#![tactic(auto)]

mod demand;
pub mod overload;

pub use demand::demand_at;
pub use overload::{Loaded, load_of};
