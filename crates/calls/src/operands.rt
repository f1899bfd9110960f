// The words of a call: how each operation uses d, a and b, and what is wrong with them.
ghost use Rattle.std.specs.Prelude.{◌≡◌};
ghost use Rattle.meaning.specs.Limits.{first_heap_cell};
ghost use Rattle.meaning.specs.Operands.{names, is_operand, wrong11, wrong12, wrong13};
ghost use Rattle.calls.specs.Operations.{op_of, use_of, Row, AnyWord, Judged};

use crate::answer::Refusal;
use crate::operations::Operation;

// The four words of a call: the number of its operation, and d, a and b.
#[derive(Clone, Copy)]
pub struct Call {
    pub operation: u32,
    pub d: u32,
    pub a: u32,
    pub b: u32,
}

// How a call uses a word: not at all, as a register, or as a code.
#[derive(Clone, Copy, PartialEq, Eq)]
enum Use {
    Unused,
    Register,
    Code,
}

use Use::{Code, Register, Unused};

// How each operation uses d, a and b, in the order of their numbers.
const USES: [[Use; 3]; 12] = [
    [Register, Unused, Unused], // CLEAR d
    [Register, Register, Unused], // COPY d a
    [Register, Code, Unused], // SYMBOL d a
    [Register, Register, Unused], // WRAP d a
    [Register, Register, Register], // JOIN d a b
    [Register, Register, Unused], // HEAD d a
    [Register, Register, Unused], // REST d a
    [Register, Register, Unused], // OPEN d a
    [Unused, Register, Unused], // LENGTH a
    [Unused, Register, Unused], // FIRST a
    [Unused, Unused, Unused], // LIVE
    [Unused, Unused, Unused], // COLLECT
];

fn uses_of(operation: Operation) -> [Use; 3]
    ensures { Row (op_of operation) result }
{
    USES[operation as usize]
}

// A register word that names no register.
#[tactic(auto, using(crate::proofs::Uses::same_use), unfolding(meaning::specs::Operands::wrong11))]
fn is_no_register(u: Use, w: u32) -> bool
    ensures { result ≡ wrong11 first_heap_cell (use_of u) w }
{
    u == Register && meaning::FIRST_HEAP_CELL <= w as usize
}

// A word that the call does not use and that is not 0.
#[tactic(auto, using(crate::proofs::Uses::same_use), unfolding(meaning::specs::Operands::wrong12))]
fn is_stray(u: Use, w: u32) -> bool
    ensures { result ≡ wrong12 (use_of u) w }
{
    u == Unused && 0 < w
}

// A code word that is no code.
#[tactic(auto, using(crate::proofs::Uses::same_use), unfolding(meaning::specs::Operands::wrong13))]
fn is_no_code(u: Use, w: u32) -> bool
    ensures { result ≡ wrong13 (use_of u) w }
{
    u == Code && !store::cells::is_code(w)
}

// Whether one of a call's three words is wrong.
fn any_word<F: Fn(Use, u32) -> bool>(uses: [Use; 3], words: [u32; 3], is_wrong: F) -> bool
    requires { F.IsAlwaysCallable is_wrong }
    ensures { AnyWord F.Fn is_wrong uses words result }
{
    is_wrong(uses[0], words[0]) || is_wrong(uses[1], words[1]) || is_wrong(uses[2], words[2])
}

// A register word that names register r.
#[tactic(auto, using(crate::proofs::Uses::same_use), unfolding(meaning::specs::Operands::names))]
fn names(u: Use, w: u32, r: u32) -> bool
    ensures { result ≡ names (use_of u) w r }
{
    u == Register && w == r
}

// Whether register d is one of the call's operand registers.
#[tactic(auto, unfolding(meaning::specs::Operands::is_operand))]
pub fn is_operand(operation: Operation, call: Call) -> bool
    ensures { result ≡ is_operand (op_of operation) call.d call.a call.b }
{
    let uses = uses_of(operation);
    names(uses[1], call.a, call.d) || names(uses[2], call.b, call.d)
}

// The operation of a call whose own words are right; else what is wrong with them.
pub fn judge(call: Call) -> Result<Operation, Refusal>
    ensures { Judged call result }
{
    let operation = Operation::try_from(call.operation)?;
    // The row is read once: the table is built on the stack for each reading of it.
    let uses = uses_of(operation);
    let words = [call.d, call.a, call.b];
    if any_word(uses, words, is_no_register) {
        return Err(Refusal::BadRegister);
    }
    if any_word(uses, words, is_stray) {
        return Err(Refusal::StrayWord);
    }
    if any_word(uses, words, is_no_code) {
        return Err(Refusal::BadCode);
    }
    Ok(operation)
}
