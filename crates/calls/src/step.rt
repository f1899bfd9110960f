// One call: its own words are tested first, and then it is carried out.
ghost use Rattle.std.specs.Prelude.{◌≡◌, ◌<◌};
ghost use Rattle.meaning.specs.Limits.{first_heap_cell};
ghost use Rattle.meaning.specs.Sound.{Sound};
ghost use Rattle.meaning.specs.Operands.{fault, index};
ghost use Rattle.meaning.specs.Call.{perform, step};
ghost use Rattle.calls.specs.Answers.{answered};
ghost use Rattle.calls.specs.Operations.{op_of};

use crate::answer::Refusal;
use crate::asking::{first, length, live};
use crate::building::{join, symbol, wrap};
use crate::collecting::collect_store;
use crate::operands::{Call, is_operand, judge};
use crate::operations::Operation;
use crate::sharing::{clear, head, open_first, rest, share};
use store::register::Register;

// The register that a word names.
fn register(w: u32) -> Register
    requires { w < first_heap_cell }
    ensures { result.cell ≡ w }
{
    Register::new(w as usize).unwrap()
}

// A call whose own words are right.
#[tactic(auto, using(crate::proofs::Performing::registers), unfolding(meaning::specs::Operands::uses))]
fn perform(
    ws: &mut [u32],
    top: &mut usize,
    operation: Operation,
    call: Call,
) -> Result<u32, Refusal>
    requires { Sound first_heap_cell ws.old top.old
        × (fault first_heap_cell (index (op_of operation)) call.d call.a call.b ≡ 0) }
    ensures { answered result ws.new top.new
        ≡ perform (op_of operation) first_heap_cell ws.old top.old call.d call.a call.b }
{
    match operation {
        Operation::Clear => {
            clear(ws, register(call.d));
            Ok(0)
        }
        Operation::Copy => {
            share(ws, register(call.d), register(call.a));
            Ok(0)
        }
        Operation::Symbol => {
            let kept = is_operand(operation, call);
            symbol(ws, top, register(call.d), call.a, kept)
        }
        Operation::Wrap => {
            let kept = is_operand(operation, call);
            wrap(ws, top, register(call.d), register(call.a), kept)
        }
        Operation::Join => {
            let kept = is_operand(operation, call);
            let (d, a, b) = (register(call.d), register(call.a), register(call.b));
            join(ws, top, d, a, b, kept)
        }
        Operation::Head => head(ws, register(call.d), register(call.a)),
        Operation::Rest => rest(ws, register(call.d), register(call.a)),
        Operation::Open => open_first(ws, register(call.d), register(call.a)),
        Operation::Length => Ok(length(ws, register(call.a))),
        Operation::First => first(ws, register(call.a)),
        Operation::Live => Ok(live(ws, *top)),
        Operation::Collect => Ok(collect_store(ws, top)),
    }
}

// One call on a sound store. A call with a wrong word changes nothing.
pub fn step(ws: &mut [u32], top: &mut usize, call: Call) -> Result<u32, Refusal>
    requires { Sound first_heap_cell ws.old top.old }
    ensures { answered result ws.new top.new
        ≡ step first_heap_cell ws.old top.old call.operation call.d call.a call.b }
{
    let operation = judge(call)?;
    perform(ws, top, operation, call)
}
