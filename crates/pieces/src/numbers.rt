// Where the reader stands, in two numbers: 0 to 3, or the status with which the text is refused; and the number so far,
// where it stands in one.
ghost use Rattle.std.specs.Prelude.{◌≡◌};
ghost use Rattle.pieces.specs.States.{StandsFor, number_of, code_of, stand_is};

use reader::codes::Code;
use reader::judging::{Fault, Stand};

const BEGUN: u32 = 0;

const SPACED: u32 = 1;

const NUMBER: u32 = 2;

const CLOSED: u32 = 3;

const NO_CODE: u32 = Fault::NoCode as u32;

const TOO_DEEP: u32 = Fault::TooDeep as u32;

const TOO_MANY: u32 = Fault::TooMany as u32;

// Any other number, and one that is no code so far, is that of bytes that are no text.
pub fn stand_of(number: u32, code: u32) -> Result<Stand, Fault>
    ensures { StandsFor number code result }
{
    match number {
        BEGUN => Ok(Stand::Begun),
        SPACED => Ok(Stand::Spaced),
        NUMBER if code <= meaning::CODE_LIMIT => Ok(Stand::Number(Code { value: code })),
        CLOSED => Ok(Stand::Closed),
        NO_CODE => Err(Fault::NoCode),
        TOO_DEEP => Err(Fault::TooDeep),
        TOO_MANY => Err(Fault::TooMany),
        _ => Err(Fault::NotText),
    }
}

pub fn numbers_of(stand: Result<Stand, Fault>) -> (u32, u32)
    ensures number { result.0 ≡ number_of (stand_is stand) }
    ensures code { result.1 ≡ code_of (stand_is stand) }
{
    match stand {
        Ok(Stand::Begun) => (BEGUN, 0),
        Ok(Stand::Spaced) => (SPACED, 0),
        Ok(Stand::Number(code)) => (NUMBER, code.value),
        Ok(Stand::Closed) => (CLOSED, 0),
        Err(fault) => (fault.into(), 0),
    }
}
