// What every analysis starts with: the refusals 3 to 8, verdict 2, or F, H and Q.
ghost use Rattle.std.specs.Prelude.{◌<◌, ◌≡◌, MatchResult};
ghost use Rattle.model.specs.ExactTest.{overload as the_overload};
ghost use Rattle.theory.specs.Sizes.{IsLoad};
ghost use Rattle.load.specs.Load.{hyperperiod_of};
ghost use Rattle.load.specs.FunctionContracts.{LoadOfSays};

use crate::demand::{demand_in, hyperperiod, largest_first};
use model::{LegalSet, Refusal, TaskSet, Verdict};

#[derive(Clone, Copy)]
pub enum Loaded {
    AboveOne(Verdict),
    AtMostOne {
        first: u64,
        hyperperiod: u64,
        load: u64,
    },
}

// F, H and Q of a legal set.
#[derive(Clone, Copy)]
struct Load<'a> {
    set: LegalSet<'a>,
    first: u64,
    hyperperiod: u64,
    load: u64,
    ghost numbers: { IsLoad set.elements.now first hyperperiod load },
}

impl<'a> Load<'a> {
    // 8, or these numbers. Q is what demand grows by in a hyperperiod, from F on.
    #[tactic(auto, using(crate::proofs::Rules::of_load))]
    fn of(set: LegalSet<'a>) -> Result<Load<'a>, Refusal>
        ensures { MatchResult result (λ load. load.set ≡ set.entry) (λ r. hyperperiod_of set.entry.elements.now ≡ Err r) }
    {
        let hyperperiod = hyperperiod(set)?;
        let first = largest_first(set);
        let load = demand_in(set, first + hyperperiod) - demand_in(set, first);
        Ok(Load {
            set,
            first,
            hyperperiod,
            load,
        })
    }

    // The first overrun among F, F + H, F + 2H and so on: each brings demand nearer by Q - H.
    #[tactic(auto, using(crate::proofs::Rules::of_overload))]
    fn overload(self) -> Verdict
        requires { self.hyperperiod < self.load }
        ensures { result ≡ the_overload self.entry.set.elements.now }
    {
        let Load {
            set,
            first,
            hyperperiod,
            load,
        } = self;
        let demand = demand_in(set, first);
        if first < demand {
            return Verdict::LoadAboveOne {
                interval: first,
                demand,
            };
        }
        let turns = (first - demand) / (load - hyperperiod) + 1;
        Verdict::LoadAboveOne {
            interval: first + turns * hyperperiod,
            demand: demand + turns * load,
        }
    }
}

// A refusal by 3 to 8; or verdict 2; or F, H and Q, with load at most one.
#[tactic(auto, using(crate::proofs::Rules::of_load_of))]
pub fn load_of(set: TaskSet) -> Result<Loaded, Refusal>
    ensures { LoadOfSays set result }
{
    let legal = LegalSet::of(&set)?;
    let found = Load::of(legal)?;
    if found.hyperperiod < found.load {
        return Ok(Loaded::AboveOne(found.overload()));
    }
    Ok(Loaded::AtMostOne {
        first: found.first,
        hyperperiod: found.hyperperiod,
        load: found.load,
    })
}
