// Document 01's two tests of a set as bytes: the set that is read, with 8 at its kind byte.
ghost use Rattle.std.specs.Prelude.{◌≤◌, ◌≡◌, List, length};
ghost use Rattle.model.specs.declared.elements.Element.{Element};
ghost use Rattle.model.specs.declared.elements.TaskSet.{TaskSet};
ghost use Rattle.model.specs.declared.answers.Reason.TheVariants.{HyperperiodAboveLimit};
ghost use Rattle.model.specs.declared.answers.Verdict.{Verdict};
ghost use Rattle.model.specs.Answers.{Answer};
ghost use Rattle.model.specs.Elements.{places};
ghost use Rattle.model.specs.Superposition.{superposition};
ghost use Rattle.model.specs.TurnedAway.{check_k};
ghost use Rattle.wire.specs.Reading.{check_records, elements_in};
ghost use Rattle.analysis.specs.InBytes.{kind_byte};
ghost use Rattle.analysis.specs.LegalSets.{of_set, of_bytes, refusal_in_bytes};
ghost use Rattle.analysis.specs.FunctionContracts.{ExactOfBytesSays, SuperpositionOfBytesSays};

use exact_test::exact;
use model::checks::check_k;
use model::elements::empty_set;
use model::{Reason, Refusal, TaskSet, Verdict};
use superposition_test::superposition;
use wire::{read_into, rest};

// The place of the kind byte of the record with this number.
fn kind_byte(bytes: &[u8], number: usize) -> usize
    requires whole { check_records places 0 bytes.now ≡ Ok tt }
    requires few { number ≤ length (elements_in places bytes.now) }
    ensures { result ≡ kind_byte bytes.now number }
{
    let mut left = bytes;
    for _ in 0..number {
        left = rest(left);
    }
    bytes.len() - left.len()
}

// 8 at its kind byte.
fn in_bytes(bytes: &[u8], r: Refusal) -> Refusal
    requires whole { check_records places 0 bytes.now ≡ Ok tt }
    requires placed { r.reason ≡ HyperperiodAboveLimit → r.place ≤ length (elements_in places bytes.now) }
    ensures { result ≡ refusal_in_bytes bytes.now r }
{
    match r.reason {
        Reason::HyperperiodAboveLimit => Refusal {
            place: kind_byte(bytes, r.place),
            ..r
        },
        _ => r,
    }
}

// A test of a set in memory, of the set that the bytes are.
fn of_bytes<T: FnOnce(TaskSet) -> Result<Verdict, Refusal>>(
    bytes: &[u8],
    test: T,
) -> Result<Verdict, Refusal>
    ghost verdict: { List Element → Verdict }
    requires any_set { T.IsAlwaysCallable test }
    requires in_memory { (t : TaskSet) (a : Answer) → T.post test t a → a ≡ of_set verdict t }
    ensures { result ≡ of_bytes verdict bytes.now }
{
    let mut set = empty_set();
    read_into(bytes, &mut set)?;
    match test(set) {
        Err(r) => Err(in_bytes(bytes, r)),
        Ok(verdict) => Ok(verdict),
    }
}

#[tactic(auto, unfolding(model::specs::TurnedAway::exact_answer, crate::specs::InBytes::exact_of_bytes))]
pub fn exact_of_bytes(bytes: &[u8]) -> Result<Verdict, Refusal>
    ensures { ExactOfBytesSays bytes.now result }
{
    of_bytes(bytes, exact)
}

// k is looked at first.
#[tactic(auto, using(crate::proofs::EntryLaws::k_refused, crate::proofs::EntryLaws::in_memory_after_k, crate::proofs::EntryLaws::in_bytes_after_k))]
pub fn superposition_of_bytes(bytes: &[u8], k: u32) -> Result<Verdict, Refusal>
    ensures { SuperpositionOfBytesSays bytes.now k result }
{
    check_k(k)?;
    of_bytes(
        bytes,
        move |set: TaskSet| -> Result<Verdict, Refusal>
            requires { check_k k ≡ Ok tt }
            ensures { result ≡ of_set (superposition k) set }
        { superposition(set, k) },
    )
}
