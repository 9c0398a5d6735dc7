// The dates of each place, as numbers.
ghost use Rattle.std.specs.Prelude.{◌≡◌};
ghost use Rattle.model.specs.declared.elements.Element.{Element};
ghost use Rattle.places.specs.Dates.{step_of, place_of, OneOf};
ghost use Rattle.places.specs.FunctionContracts.{PlaceOfSays, LaySays};

use model::elements::first_due;
use model::{Element, Period};

// What a place has for its next length when none is left.
pub const NONE_LEFT: u64 = u64::MAX;

// No bound of the exact test is above this.
const MOST_BOUND: u64 = 2_147_483_648;

// The next length at which an element is due, the step from one date to the next, and its cost.
#[derive(Clone, Copy)]
pub struct Place {
    pub next: u64,
    pub step: u64,
    pub cost: u64,
}

// A single event's step leads past every bound.
fn step_of(period: Period) -> u64
    ensures { result ≡ step_of period }
{
    match period {
        Period::Once => MOST_BOUND,
        Period::Every(p) => u64::from(p),
    }
}

// At the start the next length is the first due.
pub fn place_of(e: Element) -> Place
    ensures { PlaceOfSays e result }
{
    Place {
        next: first_due(e),
        step: step_of(e.period),
        cost: u64::from(e.cost),
    }
}

// How a row is made of an element, whatever its values.
pub trait RowOf {
    type Row: Copy;

    ghost made: { Self → Element → Self.Row };

    fn row_of(&self, e: Element) -> Self::Row
        ensures { result ≡ made self.now e };
}

// Lays out the elements, a row for each and as many as there are rows; other rows stay.
#[tactic(auto, unfolding(crate::specs::Dates::laid))]
pub fn lay_rows<T: RowOf>(elements: &[Element], rows: &mut [T::Row], rows_of: &T)
    ensures { LaySays (T.made rows_of.now) elements.now rows.old rows.new }
{
    let n = elements.len().min(rows.len());
    for (i, e) in elements[..n].iter().enumerate() {
        rows[i] = rows_of.row_of(*e);
    }
}

// The same with a closure, which has to take each of these elements and may take no other.
#[tactic(auto, unfolding(crate::specs::Dates::laid))]
pub fn lay<R: Copy, F: Fn(Element) -> R>(elements: &[Element], rows: &mut [R], row_of: F)
    ghost made: { Element → R }
    requires ready { (e : Element) → OneOf elements.now e → F.pre row_of e }
    requires says { (e : Element) (r : R) → F.post row_of e r → r ≡ made e }
    ensures { LaySays made elements.now rows.old rows.new }
{
    let n = rows.len().min(elements.len());
    for (i, e) in elements[..n].iter().enumerate() {
        rows[i] = row_of(*e);
    }
}

// The place of each element.
#[derive(Clone, Copy)]
struct Places;

impl RowOf for Places {
    type Row = Place;

    ghost made = { λ _. place_of };

    fn row_of(&self, e: Element) -> Place {
        place_of(e)
    }
}

// The elements' places, for any elements and any rows.
pub fn lay_places(elements: &[Element], places: &mut [Place])
    ensures { LaySays place_of elements.now places.old places.new }
{
    lay_rows(elements, places, &Places)
}
