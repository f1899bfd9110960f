// A register typed in (SCOPE 5.8): the way back from a printed text. The store is checked first, then the register,
// then the whole text is read, and only then is room made and the text laid. Register d is set last.
#![tactic(auto)]

ghost use Rattle.std.specs.Prelude.{◌≡◌};
ghost use Rattle.meaning.specs.Limits.{first_heap_cell};
ghost use Rattle.meaning.specs.Sound.{Sound};
ghost use Rattle.meaning.specs.Verdicts.{done};
ghost use Rattle.meaning.specs.Reader.{reads, blank};
ghost use Rattle.meaning.specs.Lay.{new_cells};
ghost use Rattle.meaning.specs.Typed.{typed_of};
ghost use Rattle.build.specs.Room.{Roomy};
ghost use Rattle.typing.specs.Answers.{typed_in, Types};
ghost use Rattle.typing.specs.Laying.{expr_of, IsText};
ghost use Rattle.typing.specs.declared.NotTyped.TheVariants as no;

use build::room::{NoRoom, make_room};
use reader::BadText;
use store::Unsound;
use store::register::Register;

mod cells;
mod laying;
mod scanning;

// Why a text is not typed in: the store is unsound; the register is none; the text is refused; or the collected store,
// whose `top` this has, has no room.
#[derive(Clone, Copy, PartialEq, Eq)]
pub enum NotTyped {
    Unsound(Unsound),
    NoRegister,
    BadText(BadText),
    NoRoom(usize),
}

impl From<Unsound> for NotTyped {
    ghost from_gives = { λ why e. e ≡ no.Unsound why };

    fn from(why: Unsound) -> NotTyped {
        NotTyped::Unsound(why)
    }
}

impl From<BadText> for NotTyped {
    ghost from_gives = { λ bad e. e ≡ no.BadText bad };

    fn from(bad: BadText) -> NotTyped {
        NotTyped::BadText(bad)
    }
}

impl From<NoRoom> for NotTyped {
    ghost from_gives = { λ none e. e ≡ no.NoRoom none.top };

    fn from(none: NoRoom) -> NotTyped {
        NotTyped::NoRoom(none.top)
    }
}

// The text's n terms laid from `top` on, and register d set. It gives the new `top`.
fn lay_text(ws: &mut [u32], top: usize, d: Register, text: &[u8], n: usize) -> usize
    requires { Roomy n ws.old top × IsText text.now n }
    ensures { done ws.new result 0
        ≡ new_cells d.cell (expr_of text.now) ws.old top }
{
    let laid = laying::lay(ws, text, top, top + n, meaning::DEPTH_LIMIT);
    cells::put_last(ws, d.cell(), laid.end, laid.terms);
    laid.end
}

// A text typed into a register of a sound store: it is read whole, and then laid where there is room. There are no
// operand registers, so d is not kept.
fn type_register(ws: &mut [u32], top: usize, d: Register, text: &[u8]) -> Result<usize, NotTyped>
    requires { Sound first_heap_cell ws.old top }
    ensures { typed_in result top ws.new
        ≡ typed_of first_heap_cell ws.old top d.cell (reads blank text.now) }
{
    let n = pieces::read(text)?;
    let low = make_room(ws, top, n, d, false)?;
    Ok(lay_text(ws, low, d, text, n))
}

// A text typed into register d of any words. Every word of the store is determined, whatever the answer.
pub fn type_in(ws: &mut [u32], top: usize, d: usize, text: &[u8]) -> Result<usize, NotTyped>
    ensures { Types ws.old top d text.now result ws.new }
{
    store::check(ws, top)?;
    let d = Register::new(d).ok_or(NotTyped::NoRegister)?;
    type_register(ws, top, d, text)
}
