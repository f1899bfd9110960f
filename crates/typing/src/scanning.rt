// The bytes of a text that has been read whole, as far as they are left: what comes next, and what is left behind it.
ghost use Rattle.std.specs.Prelude.{◌≡◌, ◌∷◌, ◌<◌, ◌^◌, drop, MatchOption};
ghost use Rattle.typing.specs.Scanning.{goes_on, less_space, NoBracket, code_at, less_digits};

use reader::codes::{Code, with_digit};

// Whether a term comes next, and not a closing bracket or the end of the text.
pub fn goes_on(text: &[u8]) -> bool
    ensures { result ≡ goes_on text.now }
{
    matches!(text, [b, ..] if *b != b')')
}

// What follows a space, if one comes next.
pub fn past_space(text: &[u8]) -> &[u8]
    ensures { result.now ≡ less_space text.now }
{
    match text {
        [b' ', rest @ ..] => rest,
        _ => text,
    }
}

// What follows an opening bracket, if one comes next.
pub fn opened(text: &[u8]) -> Option<&[u8]>
    ensures { MatchOption result (NoBracket text.now) (λ within. text.now ≡ 40 ∷ within.now) }
{
    match text {
        [b'(', within @ ..] => Some(within),
        _ => None,
    }
}

// What follows the byte that comes next, which closes a bracket, and a space behind it.
pub fn past_bracket(text: &[u8]) -> &[u8]
    ensures { result.now ≡ less_space (drop 1 text.now) }
{
    match text {
        [_, rest @ ..] => past_space(rest),
        [] => text,
    }
}

// The code whose digits come next, and what follows them.
pub fn number(text: &[u8]) -> (u32, &[u8])
    requires { code_at 0 text.now < 2 ^ 28 }
    ensures code { result.0 ≡ code_at 0 text.now }
    ensures rest { result.1.now ≡ less_digits text.now }
{
    let mut code = 0;
    for (i, b) in text.iter().enumerate() {
        if !b.is_ascii_digit() {
            return (code, &text[i..]);
        }
        code = with_digit(Code { value: code }, *b);
    }
    (code, &text[text.len()..])
}
