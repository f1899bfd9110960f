// The terms of a register, for the calls that go by its first one: HEAD, REST, OPEN and FIRST.
ghost use Rattle.meaning.specs.Sound.{at};
ghost use Rattle.build.specs.Room.{SoundWords};
ghost use Rattle.calls.specs.Answers.{HasTerms};

use crate::answer::Refusal;
use build::registers::run_of;
use store::Run;
use store::register::Register;

// The cells of register a, of which there is at least one.
pub fn terms_of(ws: &[u32], a: Register) -> Result<Run, Refusal>
    requires { SoundWords ws.now }
    ensures { HasTerms (at ws.now a.cell) result }
{
    let run = run_of(ws, a);
    if run.size == 0 {
        return Err(Refusal::Empty);
    }
    Ok(run)
}
