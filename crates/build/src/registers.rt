// What a register of a sound store holds.
ghost use Rattle.meaning.specs.Sound.{at};
ghost use Rattle.store.specs.Holds.{RunIs};
ghost use Rattle.build.specs.Room.{SoundWords};

use store::Run;
use store::register::Register;

// The cells of register a.
pub fn run_of(ws: &[u32], a: Register) -> Run
    requires { SoundWords ws.now }
    ensures { RunIs result (at ws.now a.cell) }
{
    store::run_at(ws, a.cell())
}
