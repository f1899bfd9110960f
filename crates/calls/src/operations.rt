// The twelve operations, by the number that a call has for each.
ghost use Rattle.calls.specs.Operations.{Numbered};

use crate::answer::Refusal;

#[derive(Clone, Copy, PartialEq, Eq)]
pub enum Operation {
    Clear = 0,
    Copy = 1,
    Symbol = 2,
    Wrap = 3,
    Join = 4,
    Head = 5,
    Rest = 6,
    Open = 7,
    Length = 8,
    First = 9,
    Live = 10,
    Collect = 11,
}

impl TryFrom<u32> for Operation {
    type Error = Refusal;

    ghost try_from_gives = { Numbered };

    fn try_from(number: u32) -> Result<Operation, Refusal> {
        match number {
            0 => Ok(Operation::Clear),
            1 => Ok(Operation::Copy),
            2 => Ok(Operation::Symbol),
            3 => Ok(Operation::Wrap),
            4 => Ok(Operation::Join),
            5 => Ok(Operation::Head),
            6 => Ok(Operation::Rest),
            7 => Ok(Operation::Open),
            8 => Ok(Operation::Length),
            9 => Ok(Operation::First),
            10 => Ok(Operation::Live),
            11 => Ok(Operation::Collect),
            _ => Err(Refusal::BadOperation),
        }
    }
}
