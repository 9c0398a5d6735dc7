// Document 01, "Demand": H and F of a legal set, and D by division.
ghost use Rattle.std.specs.Prelude.{◌≤◌, ◌≡◌, true};
ghost use Rattle.model.specs.Number.{gcd as the_gcd};
ghost use Rattle.model.specs.Elements.{most_h, is_legal, is_period};
ghost use Rattle.model.specs.Demand.{F, joined as the_joined, demand_of, D};
ghost use Rattle.theory.specs.Sizes.{most_length};
ghost use Rattle.load.specs.Load.{hyperperiod_of};
ghost use Rattle.load.specs.FunctionContracts.{DemandAtSays};

use model::elements::{MOST_HYPERPERIOD, first_due};
use model::{Element, LegalSet, Period, Reason, Refusal, TaskSet};

// No test asks for the demand of a longer one.
const MOST_LENGTH: u64 = 4_294_967_296;

// Euclid's steps.
#[tactic(auto, using(crate::proofs::Rules::of_gcd))]
fn gcd(a: u64, b: u64) -> u64
    ensures { result ≡ the_gcd a b }
{
    let mut x = a;
    let mut y = b;
    while y != 0 {
        (x, y) = (y, x % y);
    }
    x
}

#[tactic(auto, using(crate::proofs::Rules::of_joined))]
fn joined(period: Period, h: u64) -> u64
    requires period_legal { is_period period ≡ true }
    requires h_small { h ≤ most_h }
    ensures { result ≡ the_joined period h }
{
    match period {
        Period::Once => h,
        Period::Every(p) => {
            let p = u64::from(p);
            p / gcd(p, h) * h
        }
    }
}

// H; or 8, at the first place that brings it above its limit.
#[tactic(auto, using(crate::proofs::Rules::of_hyperperiod))]
pub(crate) fn hyperperiod(set: LegalSet) -> Result<u64, Refusal>
    ensures { result ≡ hyperperiod_of set.entry.elements.now }
{
    let mut h: u64 = 1;
    for (i, e) in set.elements.iter().enumerate() {
        h = joined(e.period, h);
        if MOST_HYPERPERIOD < h {
            return Err(Refusal {
                reason: Reason::HyperperiodAboveLimit,
                place: i,
            });
        }
    }
    Ok(h)
}

pub(crate) fn largest_first(set: LegalSet) -> u64
    ensures { result ≡ F set.entry.elements.now }
{
    set.elements
        .iter()
        .map(|e| first_due(*e))
        .max()
        .unwrap_or(0)
}

#[tactic(auto, using(crate::proofs::Rules::of_demand_of))]
fn demand_of(e: Element, length: u64) -> u64
    requires legal { is_legal e ≡ true }
    requires short { length ≤ most_length }
    ensures { result ≡ demand_of e length }
{
    let first = first_due(e);
    if length < first {
        return 0;
    }
    let cost = u64::from(e.cost);
    match e.period {
        Period::Once => cost,
        Period::Every(p) => ((length - first) / u64::from(p) + 1) * cost,
    }
}

pub(crate) fn demand_in(set: LegalSet, length: u64) -> u64
    requires { length ≤ most_length }
    ensures { result ≡ D set.entry.elements.now length }
{
    set.elements.iter().map(|e| demand_of(*e, length)).sum()
}

// D at a length of up to 2^32 ticks, of a set that is legal; 0 of any other, or past that.
#[tactic(auto, using(crate::proofs::Rules::of_demand_at))]
pub fn demand_at(set: TaskSet, length: u64) -> u64
    ensures { DemandAtSays set length result }
{
    match LegalSet::of(&set) {
        Ok(legal) if length <= MOST_LENGTH => demand_in(legal, length),
        _ => 0,
    }
}
