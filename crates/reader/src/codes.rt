// The code of a symbol as far as its digits are read.
ghost use Rattle.std.specs.Prelude.{◌≡◌, ◌≤◌, ◌<◌, ◌^◌};
ghost use Rattle.meaning.specs.Judge.{with_digit};

// A number of at most 28 bits.
#[derive(Clone, Copy)]
pub struct Code {
    pub value: u32,
    ghost small: { value < 2 ^ 28 },
}

// It with the digit b behind it.
#[tactic(auto, unfolding(meaning::specs::Judge::with_digit))]
pub fn with_digit(code: Code, b: u8) -> u32
    requires { (48 ≤ b) × (b ≤ 57) }
    ensures { result ≡ with_digit code.value b }
{
    10 * code.value + (b - b'0') as u32
}
