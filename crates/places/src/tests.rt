// A call of what no program of this house calls.
ghost use Rattle.std.specs.Prelude.{◌≡◌, true, ◌*◌, ◌/◌};
ghost use Rattle.model.specs.Elements.{is_legal};

use crate::dates::lay;
use model::elements::empty_set;
use model::{Element, LegalSet, Period};

// Thousandths of the cost by the deadline, which is 0 for no legal element.
fn density(e: Element) -> u64
    requires { is_legal e ≡ true }
    ensures { result ≡ 1000 * e.cost / e.deadline }
{
    1_000 * u64::from(e.cost) / u64::from(e.deadline)
}

fn densities(set: LegalSet) -> [u64; 3] {
    let mut rows = [7; 3];
    lay(set.elements, &mut rows, density);
    rows
}

#[test]
fn laid_by_a_closure(rt: HostRuntime) {
    let mut set = empty_set();
    set.count = 2;
    set.table[0] = Element {
        period: Period::Every(10),
        offset: 0,
        deadline: 4,
        cost: 1,
    };
    set.table[1] = Element {
        period: Period::Once,
        offset: 3,
        deadline: 8,
        cost: 3,
    };
    let rows = LegalSet::of(&set).map(densities).unwrap_or([0; 3]);
    assert_eq!(rt; rows, [250, 375, 7]);
}
