// What a call answers: its value, or why it is refused.
ghost use Rattle.std.specs.Prelude.{◌≡◌};
ghost use Rattle.calls.specs.Refusals.{status_of};
ghost use Rattle.calls.specs.Answers.{Written};

// Why a call is refused, by the status that it answers with.
#[derive(Clone, Copy, PartialEq, Eq)]
pub enum Refusal {
    BadOperation = 10,
    BadRegister = 11,
    StrayWord = 12,
    BadCode = 13,
    Empty = 14,
    WrongKind = 15,
    NoRoom = 16,
}

impl From<Refusal> for u32 {
    ghost from_gives = { λ why n. n ≡ status_of why };

    fn from(why: Refusal) -> u32 {
        why as u32
    }
}

// The two answer words of a call: its status and its value. A refused call has the value 0.
pub fn words_of(answer: Result<u32, Refusal>) -> [u32; 2]
    ensures { Written answer result }
{
    match answer {
        Ok(value) => [0, value],
        Err(why) => [u32::from(why), 0],
    }
}
