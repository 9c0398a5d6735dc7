// Both tests and the rewriting of a set, for C: include/simaurkoi.h has the contracts in words, specs/ defines them.
#![tactic(auto)]

mod answers;
pub mod calls;
