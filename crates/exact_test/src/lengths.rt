// The test lengths below a bound, compared segment by segment.
ghost use Rattle.std.specs.Prelude.{◌≤◌, ◌≡◌};
ghost use Rattle.model.specs.Demand.{f};
ghost use Rattle.model.specs.ExactTest.{comparing};
ghost use Rattle.model.specs.declared.answers.Verdict.TheVariants.{Overrun};
ghost use Rattle.theory.specs.TestLengths.{lengths_below};
ghost use Rattle.places.specs.Dates.{most_bound};
ghost use Rattle.exact_test.specs.Segments.{verdict_of};

use crate::segments::{Compared, Segment, TICKS, WORDS};
use model::elements::{PLACES, first_due};
use model::{Element, LegalSet, Verdict};
use places::dates::{RowOf, lay_rows};

// The next date of each element at the start: the first.
#[derive(Clone, Copy)]
struct FirstDate;

impl RowOf for FirstDate {
    type Row = u64;

    ghost made = { λ _. f };

    fn row_of(&self, e: Element) -> u64 {
        first_due(e)
    }
}

// The costs due are added up in a segment of lengths, and swept in rising order. By itself, and not put into its callers, it holds in registers what they would keep on the stack.
#[inline(never)]
fn compare_segments(set: LegalSet, bound: u64) -> Result<Compared, Verdict>
    requires { bound ≤ most_bound }
    ensures { verdict_of result ≡ comparing set.entry.elements.now Overrun (lengths_below set.entry.elements.now bound) }
{
    let mut dates = [0; PLACES];
    let next = &mut dates[..set.elements.len()];
    lay_rows(set.elements, next, &FirstDate);
    let mut segment = Segment {
        due: [0; TICKS],
        marks: [0; WORDS],
        seen: 0,
    };
    let mut base: u64 = 1;
    let mut compared = Compared {
        demand: 0,
        count: 0,
    };
    while base < bound {
        let len = (bound - base).min(TICKS as u64);
        let low = segment.fill(set.elements, next, base, len);
        compared = segment.sweep(base, compared)?;
        base = low;
    }
    Ok(compared)
}

// The test lengths below the bound, up to the first overrun.
pub(crate) fn compare_lengths(set: LegalSet, bound: u64) -> Verdict
    requires { bound ≤ most_bound }
    ensures { result ≡ comparing set.entry.elements.now Overrun (lengths_below set.entry.elements.now bound) }
{
    match compare_segments(set, bound) {
        Ok(compared) => Verdict::Passes {
            count: compared.count,
        },
        Err(overrun) => overrun,
    }
}
