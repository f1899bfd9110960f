// New cells laid from `top` upward, where there is room for them, and a register set to them. Each gives the new `top`.
ghost use Rattle.std.specs.Prelude.{◌≡◌, ◌+◌, ◌<◌};
ghost use Rattle.meaning.specs.Sound.{at, size};
ghost use Rattle.meaning.specs.Verdicts.{done};
ghost use Rattle.meaning.specs.Actions.{new_symbol, new_bracket, new_run};
ghost use Rattle.build.specs.Room.{Roomy};

use crate::cells::{copy_cell, copy_cells, put_ends, put_symbol};
use crate::registers::run_of;
use store::register::Register;

// Register d becomes one new symbol.
#[tactic(auto, unfolding(meaning::specs::Actions::new_symbol))]
pub fn lay_symbol(ws: &mut [u32], top: usize, d: Register, a: u32) -> usize
    requires { Roomy 1 ws.old top }
    ensures { done ws.new result 0 ≡ new_symbol d.cell a ws.old top }
{
    put_symbol(ws, top, a);
    put_ends(ws, d.cell(), top, top);
    top + 1
}

// Register d becomes one new bracket, a cell equal to register a's.
#[tactic(auto, unfolding(meaning::specs::Actions::new_bracket))]
pub fn lay_bracket(ws: &mut [u32], top: usize, d: Register, a: Register) -> usize
    requires { Roomy 1 ws.old top }
    ensures { done ws.new result 0 ≡ new_bracket d.cell a.cell ws.old top }
{
    copy_cell(ws, top, a.cell());
    put_ends(ws, d.cell(), top, top);
    top + 1
}

// Register d becomes new cells equal to those of register a, then of register b, of which one at least has some.
pub fn lay_run(ws: &mut [u32], top: usize, d: Register, a: Register, b: Register) -> usize
    requires roomy { Roomy (size (at ws.old a.cell) + size (at ws.old b.cell)) ws.old top }
    requires full { 0 < size (at ws.old a.cell) }
    ensures { done ws.new result 0 ≡ new_run d.cell a.cell b.cell ws.old top }
{
    let p = run_of(ws, a);
    let q = run_of(ws, b);
    let middle = top + p.size;
    let end = middle + q.size;
    copy_cells(ws, top, p.start, p.size);
    copy_cells(ws, middle, q.start, q.size);
    put_ends(ws, d.cell(), top, end - 1);
    end
}
