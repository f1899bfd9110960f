// Stores that no batch makes: P2 and P3, looks, and stores that are refused.
use crate::batches::batch;
use crate::show::Words;
use crate::{FIRST, cells};
use meaning::FIRST_HEAP_CELL;
use words::EMPTY;

// P2's heap has seven cells; one is free.
const CELLS: usize = FIRST_HEAP_CELL + 8;

const TOP: usize = CELLS - 1;

// P2: register 0, the symbols, with a dead one below them, and the brackets.
const P2: [(usize, u32, u32); 8] = [
    (0, FIRST + 5, EMPTY + FIRST + 6),
    (FIRST_HEAP_CELL, 70, 0),
    (FIRST_HEAP_CELL + 1, 65, 0),
    (FIRST_HEAP_CELL + 2, 66, 0),
    (FIRST_HEAP_CELL + 3, 67, 0),
    (FIRST_HEAP_CELL + 4, 68, 0),
    (FIRST_HEAP_CELL + 5, FIRST + 2, EMPTY + FIRST + 4),
    (FIRST_HEAP_CELL + 6, FIRST + 1, EMPTY + FIRST + 3),
];

fn lay(ws: &mut [u32]) {
    for (cell, a, b) in P2 {
        cells::put(ws, cell, a, b);
    }
}

fn look(rt: &HostRuntime, ws: &[u32], top: usize, register: usize) {
    let found = Words(store::look(ws, top, register));
    let _ = println!(rt; "look at {register}:{found}");
}

// One call on the store as it stands, with an answer word more than it takes, each 7 before.
fn call(rt: &HostRuntime, name: &str, ws: &mut [u32], top: usize, words: &[u32; 4]) -> usize {
    batch(rt, name, ws, top, words, &mut [7; 3])
}

// COLLECT, and a look at register 0.
fn collect(rt: &HostRuntime, name: &str, ws: &mut [u32], top: usize) -> usize {
    let last = call(rt, name, ws, top, &[11, 0, 0, 0]);
    look(rt, ws, last, 0);
    last
}

// P2, collected and collected again.
fn collects(rt: &HostRuntime, ws: &mut [u32]) -> usize {
    look(rt, ws, TOP, 0);
    let top = collect(rt, "P2", ws, TOP);
    look(rt, ws, top, 1);
    collect(rt, "P3", ws, top)
}

// The last register, none, and the words.
fn looks(rt: &HostRuntime, ws: &[u32], top: usize) {
    for register in [FIRST_HEAP_CELL - 1, FIRST_HEAP_CELL, usize::MAX] {
        look(rt, ws, top, register);
    }
    let all = Words(ws);
    let _ = println!(rt; "words:{all}");
}

// A free cell in use, which the look and the batch refuse; then a `top` that is too small, too large, and the largest.
fn refused(rt: &HostRuntime, ws: &mut [u32], last: usize) {
    cells::put(ws, TOP, 1, 0);
    look(rt, ws, last, 0);
    for top in [last, FIRST_HEAP_CELL - 1, CELLS + 1, usize::MAX] {
        call(rt, "CLEAR 0", ws, top, &[0; 4]);
    }
}

pub fn rows(rt: &HostRuntime) {
    let mut ws = [0u32; 2 * CELLS];
    let _ = store::fresh(&mut ws);
    lay(&mut ws);
    let top = collects(rt, &mut ws);
    call(rt, "the last register", &mut ws, top, &[1, FIRST - 1, 0, 0]);
    looks(rt, &ws, top);
    refused(rt, &mut ws, top);
}
