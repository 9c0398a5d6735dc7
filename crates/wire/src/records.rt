// One record: the element, the refusal, or the end; and the unread rest.
ghost use Rattle.std.specs.Prelude.{◌≡◌, ◌≤◌, length};
ghost use Rattle.wire.specs.Format.{byte_of, kind_of, period_for, record_size, element_of};
ghost use Rattle.wire.specs.Reading.{read_next, read_record, bytes_taken, IsRest};
ghost use Rattle.wire.specs.FunctionContracts.{ReadRecordSays};

use crate::kinds::Kind;
use crate::numbers::number_at;
use model::checks::check_element;
use model::elements::PLACES;
use model::{Element, Period, Reason, Refusal};

// A record of either kind has a number behind its kind: the period, or in a single event the offset.
fn period_of(kind: Kind, first: u32) -> Period
    ensures { result ≡ period_for kind first }
{
    match kind {
        Kind::Periodic => Period::Every(first),
        Kind::Single => Period::Once,
    }
}

// The element of a record that is there whole: both kinds are read in one way.
#[tactic(auto, using(crate::proofs::FormatLaws::kind_is_long), unfolding(crate::specs::Format::record_size))]
fn element_of(kind: Kind, bytes: &[u8]) -> Element
    requires kind { byte_of kind ≡ kind_of bytes.now }
    requires whole { record_size bytes.now ≤ length bytes.now }
    ensures { result ≡ element_of bytes.now }
{
    let first = number_at(bytes, 1);
    let period = period_of(kind, first);
    let at = kind.record_size() - 12;
    let offset = number_at(bytes, at);
    let deadline = number_at(bytes, at + 4);
    let cost = number_at(bytes, at + 8);
    Element {
        period,
        offset,
        deadline,
        cost,
    }
}

// What the bytes start with, at this place of the whole input; room is how many elements may still come.
#[tactic(auto, unfolding(crate::specs::Format::record_size, crate::specs::Reading::no_bytes, model::specs::TurnedAway::unless, crate::specs::Reading::check_record, crate::specs::Reading::read_next))]
pub(crate) fn read_next(room: usize, place: usize, bytes: &[u8]) -> Result<Option<Element>, Refusal>
    ensures { result ≡ read_next room place bytes.now }
{
    let Some(&byte) = bytes.first() else {
        return Ok(None);
    };
    let Ok(kind) = Kind::try_from(byte) else {
        return Err(Refusal {
            reason: Reason::UnknownKind,
            place,
        });
    };
    if bytes.len() < kind.record_size() {
        return Err(Refusal {
            reason: Reason::RecordCut,
            place,
        });
    }
    if room < 1 {
        return Err(Refusal {
            reason: Reason::TooManyElements,
            place,
        });
    }
    let e = element_of(kind, bytes);
    check_element(place, e)?;
    Ok(Some(e))
}

#[tactic(auto, unfolding(crate::specs::Reading::read_record))]
pub fn read_record(bytes: &[u8]) -> Result<Option<Element>, Refusal>
    ensures { ReadRecordSays bytes.now result }
{
    read_next(PLACES, 0, bytes)
}

// How many bytes the element's record takes: none where there is no element.
#[tactic(auto, using(crate::proofs::ReadingLaws::taken_is), unfolding(crate::specs::Reading::bytes_taken))]
fn bytes_taken(bytes: &[u8]) -> usize
    ensures { result ≡ bytes_taken (read_record bytes.now) bytes.now }
{
    match read_record(bytes) {
        Ok(Some(e)) => Kind::from(e.period).record_size(),
        Ok(None) | Err(_) => 0,
    }
}

// The bytes past the record, as that part of the caller's bytes: all of them where there is no element.
#[tactic(auto, using(crate::proofs::ReadingLaws::taken_within))]
pub fn rest(bytes: &[u8]) -> &[u8]
    ensures { IsRest bytes.entry result }
{
    let taken = bytes_taken(bytes);
    &bytes[taken..]
}
