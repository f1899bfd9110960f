// Text for the service desk (SCOPE 2.4, 5.7): a register printed into a space of bytes that the caller lends.
//
// The text is written from left to right, each byte once, up to the first trouble: a byte that does not fit, or a
// bracket that is one too many. Then the whole space becomes zero.
#![tactic(auto)]

ghost use Rattle.std.specs.Prelude.{◌≡◌};
ghost use Rattle.text.specs.Answers.{Prints};
ghost use Rattle.text.specs.Page.{stopped_by, zeroed};
ghost use Rattle.text.specs.declared.NoText.TheVariants as no_text;

use crate::writers::Stop;
use octets::writing;
use store::Unsound;
use store::register::Register;

mod writers;

// Why there is no text.
#[derive(Clone, Copy, PartialEq, Eq)]
pub enum NoText {
    Unsound(Unsound),
    NoRegister,
    TooDeep,
    ShortSpace,
}

impl From<Unsound> for NoText {
    ghost from_gives = { λ why no. no ≡ no_text.Unsound why };

    fn from(why: Unsound) -> NoText {
        NoText::Unsound(why)
    }
}

impl From<Stop> for NoText {
    ghost from_gives = { λ stop no. no ≡ stopped_by stop };

    fn from(stop: Stop) -> NoText {
        match stop {
            Stop::TooDeep(_) => NoText::TooDeep,
            Stop::ShortSpace(_) => NoText::ShortSpace,
        }
    }
}

// The text of a register, and nothing behind it. Where there is none, the space holds what was written of it.
fn write_register(ws: &[u32], top: usize, register: usize, out: &mut [u8]) -> Result<usize, NoText>
    ensures { Prints ws.now top register out.old result (zeroed result out.new) }
{
    store::check(ws, top)?;
    let register = Register::new(register).ok_or(NoText::NoRegister)?;
    let held = store::run_at(ws, register.cell());
    let text = writers::write_run(ws, top, held.start, held.size, meaning::DEPTH_LIMIT, out, 0);
    Ok(text?)
}

// A register of any words, in a text space of any length. The whole space is determined, whatever the answer.
pub fn print(ws: &[u32], top: usize, register: usize, out: &mut [u8]) -> Result<usize, NoText>
    ensures { Prints ws.now top register out.old result out.new }
{
    let printed = write_register(ws, top, register, out);
    writing::zero_from(out, printed.unwrap_or(0)); // behind the text, or everywhere
    printed
}
