// The judgement of a byte of a text that is read (SCOPE 5.8): where the reader stands, how many brackets are open and
// whether the text is full decide what a byte does. A text is read by one judgement after the other, whole or in
// pieces.
ghost use Rattle.std.specs.Prelude.{◌≡◌, ◌≤◌};
ghost use Rattle.meaning.specs.Judge.{first_move, later_move, more_move, judge};
ghost use Rattle.reader.specs.Readers.{fault_of, stand_of, judgement_of, Lengthens};

use crate::codes::{Code, with_digit};
use store::cells::is_code;

// Why a text is refused, with SCOPE's number: a number that is no code, a bracket that is one too many, a byte that
// cannot continue a text, or a term that is one too many.
#[derive(Clone, Copy, PartialEq, Eq)]
pub enum Fault {
    NoCode = 13,
    TooDeep = 21,
    NotText = 23,
    TooMany = 24,
}

impl From<Fault> for u32 {
    ghost from_gives = { λ fault n. n ≡ fault_of fault };

    fn from(fault: Fault) -> u32 {
        fault as u32
    }
}

// Where the reader stands.
#[derive(Clone, Copy)]
pub enum Stand {
    // a level has begun, and a term or its end may come
    Begun,
    // after a space, a term must come
    Spaced,
    // in a number, with the code so far
    Number(Code),
    // after a closing bracket
    Closed,
}

// What a byte does: it begins a code, lengthens one by a digit, opens or closes a bracket, or parts two terms.
#[derive(Clone, Copy)]
pub enum Move {
    Begins(Code),
    Grows(Code),
    Opens,
    Closes,
    Parts,
}

// The code with the digit b behind it, if that is a code too.
#[tactic(auto, unfolding(meaning::specs::Limits::code_test))]
fn longer(code: Code, b: u8) -> Result<Code, Fault>
    requires { (48 ≤ b) × (b ≤ 57) }
    ensures { Lengthens code b result }
{
    let value = with_digit(code, b);
    if is_code(value) {
        Ok(Code { value })
    } else {
        Err(Fault::NoCode)
    }
}

// A byte where a term may begin. At one byte a bracket that is one too many goes before a term that is, and this before
// a digit that is no code. Digits are asked for first, and each kind of term asks by itself whether the text is full:
// the compiler makes fewer jumps of that.
#[tactic(auto, unfolding(meaning::specs::Judge::first_move, meaning::specs::Judge::is_digit))]
fn first_move(depth: usize, full: bool, b: u8) -> Result<Move, Fault>
    ensures { judgement_of result ≡ first_move depth full b }
{
    match b {
        b'0'..=b'9' if full => Err(Fault::TooMany),
        b'0'..=b'9' => Ok(Move::Begins(longer(Code { value: 0 }, b)?)),
        b'(' if meaning::DEPTH_LIMIT <= depth => Err(Fault::TooDeep),
        b'(' if full => Err(Fault::TooMany),
        b'(' => Ok(Move::Opens),
        _ => Err(Fault::NotText),
    }
}

// A byte after a whole term, or at the end of a level.
#[tactic(auto, unfolding(meaning::specs::Judge::later_move))]
fn later_move(depth: usize, b: u8) -> Result<Move, Fault>
    ensures { judgement_of result ≡ later_move depth b }
{
    match b {
        b' ' => Ok(Move::Parts),
        b')' if 0 < depth => Ok(Move::Closes),
        _ => Err(Fault::NotText),
    }
}

// A byte after a digit.
#[tactic(auto, unfolding(meaning::specs::Judge::more_move, meaning::specs::Judge::is_digit))]
fn more_move(code: Code, depth: usize, b: u8) -> Result<Move, Fault>
    ensures { judgement_of result ≡ more_move code.value depth b }
{
    match b {
        b'0'..=b'9' => Ok(Move::Grows(longer(code, b)?)),
        _ => later_move(depth, b),
    }
}

// The judgement.
pub fn judge(stand: Stand, depth: usize, full: bool, b: u8) -> Result<Move, Fault>
    ensures { judgement_of result ≡ judge (stand_of stand) depth full b }
{
    match stand {
        Stand::Begun if b == b')' => later_move(depth, b),
        Stand::Begun | Stand::Spaced => first_move(depth, full, b),
        Stand::Number(code) => more_move(code, depth, b),
        Stand::Closed => later_move(depth, b),
    }
}
