// A set written to a lent buffer.
ghost use Rattle.std.specs.Prelude.{◌≡◌, ◌++◌, ◌^◌, ◌≤◌, ◌<◌, length, sum_by};
ghost use Rattle.model.specs.Buffers.{over};
ghost use Rattle.wire.specs.Format.{number_bytes, start_of, record_of};
ghost use Rattle.writer.specs.FunctionContracts.{WriteSetSays};

use crate::numbers::put_number;
use model::checks::check_set;
use model::{Element, Period, Reason, Refusal, TaskSet};
use wire::Kind;

// The kind, and the period where there is one. What varies in size goes to the start of the lent bytes, and how many it fills is handed back.
#[tactic(auto, using(crate::proofs::WritingLaws::start_length), unfolding(wire::specs::Format::start_of, wire::specs::Format::number_bytes))]
fn put_start(out: &mut [u8], period: Period) -> usize
    requires { length (start_of period) ≤ length out.old }
    ensures put { out.new ≡ over (start_of period) out.old }
    ensures size { result ≡ length (start_of period) }
{
    let (kind, rest) = out.split_at_mut(1);
    kind[0] = u8::from(Kind::from(period));
    match period {
        Period::Once => 1,
        Period::Every(p) => {
            put_number(&mut rest[..4], p);
            5
        }
    }
}

fn put_three(out: &mut [u8], a: u32, b: u32, c: u32)
    requires { length out.old ≡ 12 }
    ensures { out.new ≡ number_bytes a ++ number_bytes b ++ number_bytes c }
{
    let (first, others) = out.split_at_mut(4);
    let (second, third) = others.split_at_mut(4);
    put_number(first, a);
    put_number(second, b);
    put_number(third, c);
}

#[tactic(auto, using(crate::proofs::WritingLaws::record_length))]
fn put_record(out: &mut [u8], e: Element) -> usize
    requires { length (record_of e) ≤ length out.old }
    ensures put { out.new ≡ over (record_of e) out.old }
    ensures size { result ≡ length (record_of e) }
{
    let start = put_start(out, e.period);
    let end = start + 12;
    put_three(&mut out[start..end], e.offset, e.deadline, e.cost);
    end
}

#[tactic(auto, using(crate::proofs::WritingLaws::record_size_is))]
fn record_size(e: Element) -> usize
    ensures { result ≡ length (record_of e) }
{
    Kind::from(e.period).record_size()
}

fn bytes_needed(elements: &[Element]) -> usize
    requires { sum_by (λ e. length (record_of e)) elements.now < 2 ^ 64 }
    ensures { result ≡ sum_by (λ e. length (record_of e)) elements.now }
{
    elements.iter().map(|e| record_size(*e)).sum()
}

// Every check stands before the first byte is written, and what goes over the whole set before the first return: the compiler then copies no set.
pub fn write_set(set: TaskSet, out: &mut [u8]) -> Result<usize, Refusal>
    ensures { WriteSetSays set out.old result out.new }
{
    let needed = bytes_needed(set.counted());
    check_set(set)?;
    if out.len() < needed {
        return Err(Refusal {
            reason: Reason::BufferTooShort,
            place: needed,
        });
    }
    let mut at: usize = 0;
    for e in set.counted() {
        at += put_record(&mut out[at..], *e);
    }
    Ok(at)
}
