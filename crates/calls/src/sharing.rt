// The calls that set a register and need no new cells: CLEAR, COPY, HEAD, REST and OPEN. What the register then holds
// is shared with the one that held it, but for CLEAR.
ghost use Rattle.std.specs.Prelude.{◌≡◌};
ghost use Rattle.meaning.specs.Sound.{empty, at};
ghost use Rattle.meaning.specs.Actions.{put, copy, head, rest, open_first};
ghost use Rattle.build.specs.Room.{SoundWords};
ghost use Rattle.calls.specs.Answers.{AtAnyTop};

use crate::answer::Refusal;
use crate::terms::terms_of;
use build::cells::{copy_cell, put_empty, put_ends};
use store::Term;
use store::register::Register;

// Register d becomes empty.
pub fn clear(ws: &mut [u32], d: Register)
    requires { SoundWords ws.old }
    ensures { ws.new ≡ put ws.old d.cell empty }
{
    put_empty(ws, d.cell());
}

// Register d becomes register a.
pub fn share(ws: &mut [u32], d: Register, a: Register)
    requires { SoundWords ws.old }
    ensures { ws.new ≡ copy ws.old d.cell a.cell }
{
    copy_cell(ws, d.cell(), a.cell());
}

// Register d becomes the first term of register a: its first cell alone.
pub fn head(ws: &mut [u32], d: Register, a: Register) -> Result<u32, Refusal>
    requires { SoundWords ws.old }
    ensures { AtAnyTop result ws.new (λ top. head ws.old top d.cell (at ws.old a.cell)) }
{
    let terms = terms_of(ws, a)?;
    put_ends(ws, d.cell(), terms.start, terms.start);
    Ok(0)
}

// Register d becomes register a less its first cell, which is empty where there was only one.
pub fn rest(ws: &mut [u32], d: Register, a: Register) -> Result<u32, Refusal>
    requires { SoundWords ws.old }
    ensures { AtAnyTop result ws.new (λ top. rest ws.old top d.cell (at ws.old a.cell)) }
{
    let terms = terms_of(ws, a)?;
    if terms.size == 1 {
        put_empty(ws, d.cell());
        return Ok(0);
    }
    put_ends(ws, d.cell(), terms.start + 1, terms.start + terms.size - 1);
    Ok(0)
}

// Register d becomes the contents of the first term of register a. A bracket's cell is what a register on its contents
// is, so it is copied.
pub fn open_first(ws: &mut [u32], d: Register, a: Register) -> Result<u32, Refusal>
    requires { SoundWords ws.old }
    ensures { AtAnyTop result ws.new (λ top. open_first ws.old top d.cell (at ws.old a.cell)) }
{
    let terms = terms_of(ws, a)?;
    match store::term_at(ws, terms.start) {
        Term::Symbol(_) => Err(Refusal::WrongKind),
        Term::Bracket(_) => {
            copy_cell(ws, d.cell(), terms.start);
            Ok(0)
        }
    }
}
