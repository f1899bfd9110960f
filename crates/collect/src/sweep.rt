// The sweep: the registers, then the heap from the top down. References in the heap point down, so every holder of a
// cell has its turn before it, and the sweep comes to each cell once, however many hold it. No stack and no recursion.
//
// A holder is linked to the chain of its right end when its turn comes. The chain tells the right end, in its turn,
// that it is reached, how far down its holders reach, and whose ends to mend; then it is undone. The cells from `low`
// up to where the sweep stands are known to be reached. Where none is known, those without a chain are held by nothing.
ghost use Rattle.collect.specs.Passes.{Standable, Stood, MyTurn, Turned, Untouched, HoldsRegisters};
ghost use Rattle.collect.specs.Passes.{AtHead, Passes, Sweepable, Sweeps};

use crate::chains::{link, release};

// Puts the cell with the words a and w down at m, on the chain of its right end if it has contents.
fn stand(ws: &mut [u32], m: usize, a: u32, w: u32)
    requires { Standable ws.old m a w }
    ensures { Stood ws.old ws.new m a w }
{
    if words::is_full(w) {
        link(ws, m, a, w);
    } else {
        words::put_cell(ws, m, a, w);
    }
}

// The turns of the registers, which stay where they are.
fn hold_registers(ws: &mut [u32])
    requires { Untouched ws.old }
    ensures { HoldsRegisters ws.old ws.new }
{
    for r in 0..meaning::FIRST_HEAP_CELL {
        let a = words::first_word(ws, r);
        let w = words::second_word(ws, r);
        stand(ws, r, a, w);
    }
}

// The turn of the reached cell c, whose second word is w, and which goes to `to`; gives the lowest cell known.
fn turn(ws: &mut [u32], c: usize, w: u32, to: usize, low: usize) -> usize
    requires { MyTurn ws.old c w to low }
    ensures { Turned ws.old ws.new c w to low result }
{
    let own = release(ws, c, w, to as u32, low);
    stand(ws, to, own.first, own.second);
    own.low
}

// The turns of c, whose second word is w, and of the cells below it that become known; each goes d cells up. Gives the
// last. The compiler is to lay it out in the loop of `sweep`: as a function beside it LIVE took a quarter longer where
// all cells are live.
#[inline(always)]
fn sweep_known(ws: &mut [u32], mut c: usize, w: u32, d: usize) -> usize
    requires { AtHead ws.old c w d }
    ensures { Passes ws.old ws.new c w d result }
{
    let mut low = turn(ws, c, w, c + d, c + 1);
    while low < c {
        c -= 1;
        let w = words::second_word(ws, c);
        low = turn(ws, c, w, c + d, low);
    }
    c
}

// All turns. Gives the number of unreached cells. A reached cell with n of them above it goes `lift(n)` cells up. Where
// that is n, the reached cells end packed against `top`, their ends too; where it is 0, every word ends as it began.
pub fn sweep<F: Fn(usize) -> usize>(ws: &mut [u32], top: usize, lift: F) -> usize
    requires start { Sweepable ws.old top (F.post lift) }
    requires callable { F.IsAlwaysCallable lift }
    ensures { Sweeps ws.old ws.new top (F.post lift) result }
{
    hold_registers(ws);
    let mut dead: usize = 0;
    let mut c = top;
    while meaning::FIRST_HEAP_CELL < c {
        c -= 1;
        let w = words::second_word(ws, c);
        if words::has_left_chain(w) {
            c = sweep_known(ws, c, w, lift(dead));
        } else {
            dead += 1;
        }
    }
    dead
}
