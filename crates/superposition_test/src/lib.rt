// Document 01, "Superposition", of a set in memory, with k test points for each periodic element.
#![tactic(auto)]

ghost use Rattle.superposition_test.specs.FunctionContracts.{SuperpositionSays};

mod walk;

use load::{Loaded, demand_at, load_of};
use model::checks::check_k;
use model::{LegalSet, Refusal, TaskSet, Verdict};
use walk::walk;

// 9, then a refusal by 3 to 8, or the verdict.
pub fn superposition(set: TaskSet, k: u32) -> Result<Verdict, Refusal>
    ensures { SuperpositionSays set k result }
{
    check_k(k)?;
    let loaded = load_of(set)?;
    match loaded {
        Loaded::AboveOne(verdict) => Ok(verdict),
        Loaded::AtMostOne { hyperperiod, .. } => {
            let legal = LegalSet {
                elements: set.counted(),
            };
            match walk(legal, u64::from(k), hyperperiod) {
                Ok(count) => Ok(Verdict::Passes { count }),
                Err(held) => Ok(Verdict::NotShown {
                    interval: held.interval,
                    demand: demand_at(set, held.interval),
                    count: held.count,
                }),
            }
        }
    }
}
