// Document 01, "Exact test", of a set in memory.
#![tactic(auto)]

ghost use Rattle.exact_test.specs.FunctionContracts.{ExactSays};

mod lengths;
mod segments;

use lengths::compare_lengths;
use load::{Loaded, load_of};
use model::{LegalSet, Refusal, TaskSet, Verdict};

// A refusal by 3 to 8, or the verdict: the test lengths below F + H are compared.
pub fn exact(set: TaskSet) -> Result<Verdict, Refusal>
    ensures { ExactSays set result }
{
    let loaded = load_of(set)?;
    match loaded {
        Loaded::AboveOne(verdict) => Ok(verdict),
        Loaded::AtMostOne {
            first,
            hyperperiod,
            ..
        } => {
            let legal = LegalSet {
                elements: set.counted(),
            };
            Ok(compare_lengths(legal, first + hyperperiod))
        }
    }
}
