// The text of the four answers to these bytes.
ghost use Rattle.verdict.specs.FunctionContracts.{PutVerdictsSays};

use analysis::{exact_of_bytes, superposition_of_bytes};
use model::Told;
use printer::{Lines, ROOM, put_answers};

// Puts what is printed for these bytes at the start of out, and answers how many bytes that are.
#[tactic(auto, unfolding(crate::specs::Printed::printed))]
pub(crate) fn put_verdicts(bytes: &[u8], out: &mut [u8; ROOM]) -> usize
    ensures { PutVerdictsSays bytes.now out.old result out.new }
{
    let answers = Lines {
        exact: exact_of_bytes(bytes).map_err(Told::from),
        one: superposition_of_bytes(bytes, 1).map_err(Told::from),
        two: superposition_of_bytes(bytes, 2).map_err(Told::from),
        hundred: superposition_of_bytes(bytes, 100).map_err(Told::from),
    };
    put_answers(answers, out)
}
