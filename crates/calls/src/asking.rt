// The calls that answer with a value and leave every word as it is: LENGTH, FIRST and LIVE.
ghost use Rattle.std.specs.Prelude.{◌≡◌};
ghost use Rattle.meaning.specs.Limits.{first_heap_cell};
ghost use Rattle.meaning.specs.Sound.{Sound, at, size};
ghost use Rattle.meaning.specs.Reach.{live};
ghost use Rattle.meaning.specs.Actions.{code_first};
ghost use Rattle.build.specs.Room.{SoundWords};
ghost use Rattle.calls.specs.Answers.{AtAnyTop};

use crate::answer::Refusal;
use crate::terms::terms_of;
use build::registers::run_of;
use store::Term;
use store::register::Register;

// The number of top-level terms of register a.
pub fn length(ws: &[u32], a: Register) -> u32
    requires { SoundWords ws.now }
    ensures { result ≡ size (at ws.now a.cell) }
{
    run_of(ws, a).size as u32
}

// The code of the first term of register a.
pub fn first(ws: &[u32], a: Register) -> Result<u32, Refusal>
    requires { SoundWords ws.now }
    ensures { AtAnyTop result ws.now (λ top. code_first ws.now top (at ws.now a.cell)) }
{
    let terms = terms_of(ws, a)?;
    match store::term_at(ws, terms.start) {
        Term::Symbol(code) => Ok(code),
        Term::Bracket(_) => Err(Refusal::WrongKind),
    }
}

// The number of reached heap cells.
#[tactic(auto, using(build::proofs::Rooms::live_small, meaning::proofs::sound::Cells::limit_fits))]
pub fn live(ws: &mut [u32], top: usize) -> u32
    requires { Sound first_heap_cell ws.old top }
    ensures { (ws.new ≡ ws.old) × (result ≡ live first_heap_cell ws.old top) }
{
    collect::live(ws, top) as u32
}
