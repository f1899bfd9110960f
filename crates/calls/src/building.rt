// The calls that lay new cells: SYMBOL, WRAP and JOIN. Each is told whether register d is kept while room is sought:
// whether it is an operand.
ghost use Rattle.std.specs.Prelude.{◌≡◌, ◌+◌};
ghost use Rattle.meaning.specs.Limits.{first_heap_cell};
ghost use Rattle.meaning.specs.Sound.{Sound, at, size};
ghost use Rattle.meaning.specs.Actions.{new_symbol, new_bracket, new_run};
ghost use Rattle.meaning.specs.Call.{sought, with_room, join_plan, carry_out};
ghost use Rattle.calls.specs.Answers.{answered, Roomed};
ghost use Rattle.build.specs.Room.{Survives};

use crate::answer::Refusal;
use crate::sharing::share;
use build::laying::{lay_bracket, lay_run, lay_symbol};
use build::registers::run_of;
use build::room::{NoRoom, make_room};
use store::register::Register;

// Room for n new cells, from the `top` that it leaves.
fn find_room(
    ws: &mut [u32],
    top: &mut usize,
    n: usize,
    d: Register,
    kept: bool,
) -> Result<(), Refusal>
    requires { Sound first_heap_cell ws.old top.old }
    ensures { Roomed n (sought kept d.cell ws.old) ws.old top.old result ws.new top.new }
{
    match make_room(ws, *top, n, d, kept) {
        Ok(place) => {
            *top = place;
            Ok(())
        }
        Err(NoRoom { top: low }) => {
            *top = low;
            Err(Refusal::NoRoom)
        }
    }
}

// SYMBOL: room for one cell, and the symbol there.
pub fn symbol(
    ws: &mut [u32],
    top: &mut usize,
    d: Register,
    a: u32,
    kept: bool,
) -> Result<u32, Refusal>
    requires { Sound first_heap_cell ws.old top.old }
    ensures { answered result ws.new top.new
        ≡ with_room first_heap_cell 1 (sought kept d.cell ws.old) (new_symbol d.cell a) ws.old top.old }
{
    find_room(ws, top, 1, d, kept)?;
    *top = lay_symbol(ws, *top, d, a);
    Ok(0)
}

// WRAP: room for one cell, and a copy of register a there.
pub fn wrap(
    ws: &mut [u32],
    top: &mut usize,
    d: Register,
    a: Register,
    kept: bool,
) -> Result<u32, Refusal>
    requires { Sound first_heap_cell ws.old top.old }
    ensures { answered result ws.new top.new
        ≡ with_room first_heap_cell 1 (sought kept d.cell ws.old) (new_bracket d.cell a.cell) ws.old top.old }
{
    find_room(ws, top, 1, d, kept)?;
    *top = lay_bracket(ws, *top, d, a);
    Ok(0)
}

// JOIN: with a empty it shares b, else with b empty it shares a, else it copies the cells of both.
pub fn join(
    ws: &mut [u32],
    top: &mut usize,
    d: Register,
    a: Register,
    b: Register,
    kept: bool,
) -> Result<u32, Refusal>
    requires sound { Sound first_heap_cell ws.old top.old }
    requires survives { Survives kept d.cell a.cell × Survives kept d.cell b.cell }
    ensures { answered result ws.new top.new
        ≡ carry_out first_heap_cell (join_plan (size (at ws.old a.cell)) (size (at ws.old b.cell))
        (sought kept d.cell ws.old) d.cell a.cell b.cell) ws.old top.old }
{
    let p = run_of(ws, a);
    let q = run_of(ws, b);
    if p.size == 0 {
        share(ws, d, b);
        return Ok(0);
    }
    if q.size == 0 {
        share(ws, d, a);
        return Ok(0);
    }
    find_room(ws, top, p.size + q.size, d, kept)?;
    *top = lay_run(ws, *top, d, a, b);
    Ok(0)
}
