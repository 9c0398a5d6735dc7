// A set read from bytes.
ghost use Rattle.std.specs.Prelude.{◌≡◌};
ghost use Rattle.model.specs.Elements.{empty_set};
ghost use Rattle.wire.specs.Reading.{handed_back, read_set};
ghost use Rattle.wire.specs.FunctionContracts.{ReadSetSays};

use crate::records::{read_next, rest};
use model::elements::{PLACES, empty_set};
use model::{Refusal, TaskSet};

// Reads into an empty set; where a record is refused, the elements before it stand there.
fn read_elements(bytes: &[u8], set: &mut TaskSet) -> Result<(), Refusal>
    requires { set.old ≡ empty_set }
    ensures { handed_back result set.new ≡ read_set bytes.now }
{
    let mut left = bytes;
    while let Some(e) = read_next(PLACES - set.count, bytes.len() - left.len(), left)? {
        left = rest(left);
        set.table[set.count] = e;
        set.count += 1;
    }
    Ok(())
}

// Reads into a lent set, whatever it held: a caller that has one needs no second for what is read.
pub fn read_into(bytes: &[u8], set: &mut TaskSet) -> Result<(), Refusal>
    ensures { ReadSetSays bytes.now result set.new }
{
    *set = empty_set();
    let read = read_elements(bytes, set);
    if read.is_err() {
        *set = empty_set();
    }
    read
}
