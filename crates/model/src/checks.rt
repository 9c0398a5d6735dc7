// Document 01, "What is turned away": a set in memory is checked for 3 to 7, and k for 9.
ghost use Rattle.std.specs.Prelude.{◌≡◌};
ghost use Rattle.model.specs.Elements.{within, is_period};
ghost use Rattle.model.specs.TurnedAway.{unless as the_unless};
ghost use Rattle.model.specs.FunctionContracts.{CheckElementSays, LegalSetSays, CheckSetSays, CheckKSays};

use crate::answers::{Reason, Refusal};
use crate::elements::{
    Element, MOST_COST, MOST_DEADLINE, MOST_K, MOST_OFFSET, MOST_PERIOD, PLACES, Period, TaskSet,
};
use crate::legal::LegalSet;

#[tactic(auto, unfolding(crate::specs::Elements::within))]
fn is_within(low: u32, high: u32, x: u32) -> bool
    ensures { result ≡ within low high x }
{
    (low..=high).contains(&x)
}

#[tactic(auto, unfolding(crate::specs::Elements::is_period))]
fn is_period(period: Period) -> bool
    ensures { result ≡ is_period period }
{
    match period {
        Period::Once => true,
        Period::Every(p) => is_within(1, MOST_PERIOD, p),
    }
}

#[tactic(auto, unfolding(crate::specs::TurnedAway::unless))]
fn unless(passes: bool, reason: Reason, place: usize) -> Result<(), Refusal>
    ensures { result ≡ the_unless passes reason place }
{
    if passes {
        Ok(())
    } else {
        Err(Refusal { reason, place })
    }
}

// 4 to 7, in that order, at the place of the element.
#[tactic(auto, unfolding(crate::specs::Elements::is_offset, crate::specs::Elements::is_deadline, crate::specs::Elements::is_cost, crate::specs::TurnedAway::check_element))]
pub fn check_element(place: usize, e: Element) -> Result<(), Refusal>
    ensures { CheckElementSays place e result }
{
    unless(is_period(e.period), Reason::PeriodOutOfRange, place)?;
    unless(
        is_within(0, MOST_OFFSET, e.offset),
        Reason::OffsetOutOfRange,
        place,
    )?;
    unless(
        is_within(1, MOST_DEADLINE, e.deadline),
        Reason::DeadlineOutOfRange,
        place,
    )?;
    unless(
        is_within(1, MOST_COST, e.cost),
        Reason::CostOutOfRange,
        place,
    )
}

// 9: k out of range.
#[tactic(auto, unfolding(crate::specs::TurnedAway::check_k))]
pub fn check_k(k: u32) -> Result<(), Refusal>
    ensures { CheckKSays k result }
{
    unless(is_within(1, MOST_K, k), Reason::KOutOfRange, 0)
}

impl<'a> LegalSet<'a> {
    // 3 at place 128, then 4 to 7 element by element at its table place.
    pub fn of(set: &'a TaskSet) -> Result<LegalSet<'a>, Refusal>
        ensures { LegalSetSays set.entry result }
    {
        unless(set.count <= PLACES, Reason::TooManyElements, PLACES)?;
        let elements = set.counted();
        for (place, e) in elements.iter().enumerate() {
            check_element(place, *e)?;
        }
        Ok(LegalSet { elements })
    }
}

pub fn check_set(set: TaskSet) -> Result<(), Refusal>
    ensures { CheckSetSays set result }
{
    LegalSet::of(&set)?;
    Ok(())
}
