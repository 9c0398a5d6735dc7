// The calls from C. A slice is a pointer and a length there, in this order.
ghost use Rattle.std.specs.Prelude.{◌≡◌, length};
ghost use Rattle.capi.specs.Calls.{rewrite, rewritten};
ghost use Rattle.capi.specs.FunctionContracts.{ExactCallSays, SuperpositionCallSays, RewriteCallSays};

use crate::answers::{put_numbers, rewrite_numbers};
use analysis::{exact_of_bytes, superposition_of_bytes};
use model::elements::empty_set;
use model::{Numbers, Reason, Refusal};
use wire::read_into;
use writer::write_set;

const ANSWER_PLACES: usize = 6;

// What is returned where an answer has fewer: as for a buffer shorter than the written set.
fn too_few_places() -> u32
    ensures { result ≡ 10 }
{
    u32::from(Reason::BufferTooShort)
}

#[unsafe(no_mangle)]
pub extern "C" fn simaurkoi_exact(set: &[u8], answer: &mut [u64]) -> u32
    ensures { ExactCallSays set.now answer.old result answer.new }
{
    if answer.len() < ANSWER_PLACES {
        return too_few_places();
    }
    put_numbers(answer, Numbers::from(exact_of_bytes(set)))
}

#[unsafe(no_mangle)]
pub extern "C" fn simaurkoi_superposition(set: &[u8], k: u32, answer: &mut [u64]) -> u32
    ensures { SuperpositionCallSays set.now k answer.old result answer.new }
{
    if answer.len() < ANSWER_PLACES {
        return too_few_places();
    }
    put_numbers(answer, Numbers::from(superposition_of_bytes(set, k)))
}

// The set of a refused read is empty: writing it changes no byte. With no way out before it the compiler copies no set.
fn read_then_write(set: &[u8], out: &mut [u8]) -> Result<usize, Refusal>
    ensures { (result ≡ rewrite set.now (length out.old)) × (out.new ≡ rewritten set.now out.old) }
{
    let mut read = empty_set();
    let check = read_into(set, &mut read);
    let done = write_set(read, out);
    check.and(done)
}

#[unsafe(no_mangle)]
pub extern "C" fn simaurkoi_rewrite(set: &[u8], out: &mut [u8], answer: &mut [u64]) -> u32
    ensures { RewriteCallSays set.now out.old answer.old result out.new answer.new }
{
    if answer.len() < ANSWER_PLACES {
        return too_few_places();
    }
    put_numbers(answer, rewrite_numbers(read_then_write(set, out)))
}
