// A legal set as a type: whoever makes one proves it.
ghost use Rattle.std.specs.Prelude.{◌≡◌, ◌≤◌, true, length};
ghost use Rattle.model.specs.Over.{all_over};
ghost use Rattle.model.specs.Elements.{is_legal, places};

use crate::elements::Element;

// The elements of a legal set.
#[derive(Clone, Copy)]
pub struct LegalSet<'a> {
    pub elements: &'a [Element],
    ghost legal: { all_over elements.now is_legal ≡ true },
    ghost few: { length elements.now ≤ places },
}
