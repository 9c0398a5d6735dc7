// The superposition walk: one row for each element, and the least of their next lengths compared at each step.
ghost use Rattle.std.specs.Prelude.{◌≡◌, true, ◌≤◌, IfErr};
ghost use Rattle.model.specs.declared.answers.Verdict.TheVariants.{NotShown};
ghost use Rattle.model.specs.Elements.{most_h, most_k};
ghost use Rattle.model.specs.ExactTest.{comparing};
ghost use Rattle.model.specs.Superposition.{superposition_lengths};
ghost use Rattle.theory.specs.Sizes.{most_length};
ghost use Rattle.superposition_test.specs.Walk.{row_of, least_next, Movable, MovedOn, Walkable, told};

use model::elements::PLACES;
use model::{Element, LegalSet, Period};
use places::dates::{NONE_LEFT, Place, RowOf, lay_rows, place_of};

// What the walk holds of an element: its place, the last length where its demand is exact, and what it adds to the slope past that.
#[derive(Clone, Copy)]
pub(crate) struct Row {
    pub(crate) place: Place,
    pub(crate) last: u64,
    pub(crate) rise: u64,
}

const UNUSED: Row = Row {
    place: Place {
        next: 0,
        step: 0,
        cost: 0,
    },
    last: 0,
    rise: 0,
};

// The cost due at one length, what the slope rises by there, and the least next length after it.
#[derive(Clone, Copy)]
pub(crate) struct Moved {
    pub(crate) cost: u64,
    pub(crate) rise: u64,
    pub(crate) next: u64,
}

// The first length where the set is not shown to be feasible, and how many were compared.
#[derive(Clone, Copy)]
pub(crate) struct HeldBack {
    pub(crate) interval: u64,
    pub(crate) count: u64,
}

// The rows of a walk with k test points for each periodic element and this H.
#[derive(Clone, Copy)]
struct WalkRows {
    k: u64,
    h: u64,
    ghost k_fine: { (1 ≤ k) × (k ≤ most_k) },
    ghost h_small: { h ≤ most_h },
}

impl RowOf for WalkRows {
    type Row = Row;

    ghost made = { λ of. row_of of.k of.h };

    fn row_of(&self, e: Element) -> Row {
        let place = place_of(e);
        let last = match e.period {
            Period::Once => place.next,
            Period::Every(p) => place.next + (self.k - 1) * u64::from(p),
        };
        // A step of 0, which no legal element has, adds nothing to the slope.
        let per_hyperperiod = self.h.checked_div(place.step).unwrap_or(0);
        Row {
            place,
            last,
            rise: place.cost * per_hyperperiod,
        }
    }
}

// The least of the next lengths, none left where there is none.
fn least(rows: &[Row]) -> u64
    ensures { result ≡ least_next rows.now }
{
    rows.iter()
        .fold(NONE_LEFT, |best, row| best.min(row.place.next))
}

// Moves on every row that has this length for its next.
fn move_on(rows: &mut [Row], at: u64) -> Moved
    requires { Movable rows.old at }
    ensures { MovedOn at rows.old rows.new result }
{
    let mut cost: u64 = 0;
    let mut rise: u64 = 0;
    let mut next = NONE_LEFT;
    for row in rows.iter_mut() {
        if row.place.next == at {
            cost = cost + row.place.cost;
            if at < row.last {
                row.place.next = at + row.place.step;
            } else {
                row.place.next = NONE_LEFT;
                rise = rise + row.rise;
            }
        }
        next = next.min(row.place.next);
    }
    Moved { cost, rise, next }
}

// The walk with load at most one: at each step the least next length is compared, until none is left.
pub(crate) fn walk(set: LegalSet, k: u64, h: u64) -> Result<u64, HeldBack>
    requires { Walkable set.elements.now k h }
    ensures short { IfErr result (λ x. x.interval ≤ most_length) }
    ensures verdict { let s = set.entry.elements.now in told s result ≡ comparing s NotShown (superposition_lengths k s) }
{
    let mut table = [UNUSED; PLACES];
    let rows = &mut table[..set.elements.len()];
    lay_rows(set.elements, rows, &WalkRows { k, h });
    let mut before: u64 = 0;
    let mut scaled: u64 = 0;
    let mut slope: u64 = 0;
    let mut count: u64 = 0;
    let mut at = least(rows);
    while at != NONE_LEFT {
        let moved = move_on(rows, at);
        scaled = scaled + (slope * (at - before) + moved.cost * h);
        count = count + 1;
        if h * at < scaled {
            return Err(HeldBack {
                interval: at,
                count,
            });
        }
        slope = slope + moved.rise;
        before = at;
        at = moved.next;
    }
    Ok(count)
}
