// A batch of calls on a lent store. The store, the call list and the answer space are tested first, in the order of
// SCOPE 5.1, and a refused batch leaves everything as it is lent. Else each call is carried out after the one before
// it, and its status and value are written into the answers; what is left of the answers is zeroed.
#![tactic(auto)]

ghost use Rattle.std.specs.Prelude.{◌≡◌, ◌+◌, ◌*◌, ◌/◌, ◌%◌, ◌≤◌, ◌<◌, length, take};
ghost use Rattle.meaning.specs.Limits.{first_heap_cell};
ghost use Rattle.meaning.specs.Sound.{Sound};
ghost use Rattle.meaning.specs.Batch.{runs, calls_test, batch_of};
ghost use Rattle.calls.specs.Answers.{ran_in, Runs};
ghost use Rattle.calls.specs.Calling.{call_at, CallDone, ran_to};
ghost use Rattle.calls.specs.declared.NotRun.TheVariants as not_run;

use operands::Call;
use store::Unsound;

mod answer;
mod asking;
mod building;
mod collecting;
mod operands;
mod operations;
mod sharing;
mod step;
mod terms;

// Why a batch is refused.
#[derive(Clone, Copy, PartialEq, Eq)]
pub enum NotRun {
    Unsound(Unsound),
    BadCalls,
    ShortAnswers,
}

impl From<Unsound> for NotRun {
    ghost from_gives = { λ why e. e ≡ not_run.Unsound why };

    fn from(why: Unsound) -> NotRun {
        NotRun::Unsound(why)
    }
}

// Whether a call list may have n words.
#[tactic(auto, unfolding(meaning::specs::Batch::calls_test, meaning::specs::Limits::calls_limit))]
fn calls_ok(n: usize) -> bool
    ensures { result ≡ calls_test n }
{
    n <= meaning::CALL_WORDS && n % 4 == 0
}

// Call number i, with its status and value as answers 2i and 2i + 1.
fn run_call(ws: &mut [u32], top: &mut usize, calls: &[u32], answers: &mut [u32], i: usize)
    requires { Sound first_heap_cell ws.old top.old × (4 * i + 3 < length calls.now)
        × (2 * i + 1 < length answers.old) }
    ensures { CallDone (call_at ws.old top.old calls.now i) i answers.old top.new ws.new answers.new }
{
    let call = Call {
        operation: calls[4 * i],
        d: calls[4 * i + 1],
        a: calls[4 * i + 2],
        b: calls[4 * i + 3],
    };
    let [status, value] = answer::words_of(step::step(ws, top, call));
    answers[2 * i] = status;
    answers[2 * i + 1] = value;
}

// All calls, one after the other, those after a refused one too.
fn run_calls(ws: &mut [u32], top: &mut usize, calls: &[u32], answers: &mut [u32])
    requires { Sound first_heap_cell ws.old top.old × (length calls.now % 4 ≡ 0)
        × (2 * (length calls.now / 4) ≤ length answers.old) }
    ensures { runs first_heap_cell ws.old top.old calls.now
        ≡ ran_to top.new ws.new (take (2 * (length calls.now / 4)) answers.new) }
{
    for i in 0..calls.len() / 4 {
        run_call(ws, top, calls, answers, i);
    }
}

// A batch on a sound store.
fn run_sound(
    ws: &mut [u32],
    top: usize,
    calls: &[u32],
    answers: &mut [u32],
) -> Result<usize, NotRun>
    requires { Sound first_heap_cell ws.old top }
    ensures { ran_in result ws.new top answers.new
        ≡ batch_of first_heap_cell ws.old top calls.now answers.old }
{
    if !calls_ok(calls.len()) {
        return Err(NotRun::BadCalls);
    }
    let used = 2 * (calls.len() / 4);
    if answers.len() < used {
        return Err(NotRun::ShortAnswers);
    }
    let mut end = top;
    run_calls(ws, &mut end, calls, answers);
    words::zero_from(answers, used);
    Ok(end)
}

// A batch on any words: the store is checked first. `top` after its last call comes back.
pub fn run(ws: &mut [u32], top: usize, calls: &[u32], answers: &mut [u32]) -> Result<usize, NotRun>
    ensures { Runs ws.old top calls.now answers.old result ws.new
        answers.new }
{
    store::check(ws, top)?;
    run_sound(ws, top, calls, answers)
}
