// The six numbers of an answer, put into its first six places.
ghost use Rattle.std.specs.Prelude.{◌≤◌, ◌≡◌, length};
ghost use Rattle.model.specs.Buffers.{over};
ghost use Rattle.capi.specs.Calls.{six, rewrite_numbers};

use model::{Numbers, Refusal};

// Returns the refusal's number.
#[tactic(auto, unfolding(crate::specs::Calls::six))]
pub(crate) fn put_numbers(answer: &mut [u64], n: Numbers) -> u32
    requires { 6 ≤ length answer.old }
    ensures { (result ≡ n.refusal) × (answer.new ≡ over (six n) answer.old) }
{
    let six = [
        u64::from(n.refusal),
        n.place as u64,
        n.verdict,
        n.interval,
        n.demand,
        n.count,
    ];
    answer[..six.len()].copy_from_slice(&six);
    n.refusal
}

#[tactic(auto, unfolding(crate::specs::Calls::rewrite_numbers))]
pub(crate) fn rewrite_numbers(done: Result<usize, Refusal>) -> Numbers
    ensures { result ≡ rewrite_numbers done }
{
    match done {
        Err(r) => Numbers::from(Err(r)),
        Ok(n) => Numbers {
            refusal: 0,
            place: 0,
            verdict: n as u64,
            interval: 0,
            demand: 0,
            count: 0,
        },
    }
}
