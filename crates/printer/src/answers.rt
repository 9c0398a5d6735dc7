// The text of four answers.
ghost use Rattle.std.specs.Prelude.{◌+◌, ◌≤◌, ◌≡◌, length};
ghost use Rattle.printer.specs.Answered.{lines, shown_of};
ghost use Rattle.printer.specs.Growing.{Grows};
ghost use Rattle.printer.specs.FunctionContracts.{PutAnswersSays};
ghost use Rattle.printer.specs.Text.{verdict_line, refused_line};

pub use crate::text::ROOM;
use crate::text::{Text, push_line};
use model::{Told, Values, Verdict};

// What stands for each line: the exact test's, and those of k = 1, 2 and 100.
#[derive(Clone, Copy)]
pub struct Lines<T> {
    pub exact: T,
    pub one: T,
    pub two: T,
    pub hundred: T,
}

// The first refusal decides.
#[tactic(auto, unfolding(crate::specs::Answered::first_refusal))]
fn shown_of(answers: Lines<Result<Verdict, Told>>) -> Result<Lines<Verdict>, Told>
    ensures { result ≡ shown_of answers }
{
    Ok(Lines {
        exact: answers.exact?,
        one: answers.one?,
        two: answers.two?,
        hundred: answers.hundred?,
    })
}

fn push_refusal(text: &mut Text, r: Told)
    requires { length text.old.bytes + 50 ≤ 512 }
    ensures { Grows 50 (refused_line r) text.old.bytes text.new.bytes }
{
    push_line(text, "refused", &[u64::from(r.refusal), r.place as u64]);
}

fn push_verdict(text: &mut Text, name: &str, verdict: Verdict)
    requires { length text.old.bytes + (length name.now + 85) ≤ 512 }
    ensures { Grows (length name.now + 85) (verdict_line name.now verdict) text.old.bytes text.new.bytes }
{
    let v = Values::from(verdict);
    push_line(text, name, &[v.verdict, v.interval, v.demand, v.count]);
}

fn push_verdicts(text: &mut Text, verdicts: Lines<Verdict>)
    requires { length text.old.bytes + 356 ≤ 512 }
    ensures { Grows 356 (lines verdicts) text.old.bytes text.new.bytes }
{
    push_verdict(text, "exact", verdicts.exact);
    push_verdict(text, "k=1", verdicts.one);
    push_verdict(text, "k=2", verdicts.two);
    push_verdict(text, "k=100", verdicts.hundred);
}

// Puts the text of the answers of the exact test and of k = 1, 2 and 100 at the start of out, and answers how many bytes that are.
pub fn put_answers(answers: Lines<Result<Verdict, Told>>, out: &mut [u8; ROOM]) -> usize
    ensures { PutAnswersSays answers out.old result out.new }
{
    let mut text = Text::new();
    match shown_of(answers) {
        Ok(verdicts) => push_verdicts(&mut text, verdicts),
        Err(refusal) => push_refusal(&mut text, refusal),
    }
    out[..text.len()].copy_from_slice(text.as_bytes());
    text.len()
}
