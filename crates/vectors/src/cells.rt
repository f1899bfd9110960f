// The rules of one cell, in a store that has three symbols on its heap and one free cell.
use crate::{FIRST, SMALL, answers};
use meaning::{CODE_LIMIT, FIRST_HEAP_CELL, LEAST_CODE};
use std::io;
use words::EMPTY;

const TOP: usize = FIRST_HEAP_CELL + 3;

// The last heap cell, the first free one, and the last register.
const LAST: usize = TOP - 1;

const FREE: usize = TOP;

const REGISTER: usize = FIRST_HEAP_CELL - 1;

// The two words of a cell of the slice; nothing where it has no such cell.
pub fn put(ws: &mut [u32], cell: usize, a: u32, b: u32) {
    if cell < ws.len() / 2 {
        words::put_cell(ws, cell, a, b);
    }
}

// A symbol in each heap cell of the slice that is below `top`.
pub fn fill(ws: &mut [u32], top: usize) {
    for cell in FIRST_HEAP_CELL..top.min(ws.len() / 2) {
        words::put_cell(ws, cell, 65, 0);
    }
}

fn row(rt: &HostRuntime, cell: usize, a: u32, b: u32) -> io::Result<()> {
    let mut ws = [0u32; 2 * SMALL];
    let _ = store::fresh(&mut ws);
    fill(&mut ws, TOP);
    put(&mut ws, cell, a, b);
    let found = answers::checked(store::check(&ws, TOP));
    println!(rt; "cell {cell} {a} {b}: check {found}")
}

// A cell, and the words that are put there.
const ROWS: [(usize, u32, u32); 26] = [
    // the last heap cell as a bracket: P6, and each end one too far
    (LAST, FIRST, EMPTY + FIRST + 1),
    (LAST, FIRST, EMPTY + FIRST + 2),
    (LAST, FIRST + 1, EMPTY + FIRST),
    (LAST, FIRST + 1, EMPTY + FIRST + 1),
    (LAST, FIRST - 1, EMPTY + FIRST + 1),
    // empty, and nearly; then with used, the left or the right chain
    (LAST, 0, EMPTY),
    (LAST, 1, EMPTY),
    (LAST, FIRST, EMPTY + (1 << 30) + FIRST),
    (LAST, FIRST, EMPTY + (1 << 29) + FIRST),
    (LAST, FIRST, EMPTY + (1 << 28) + FIRST),
    // the last heap cell as a symbol, and the first free cell
    (LAST, CODE_LIMIT, 0),
    (LAST, CODE_LIMIT + 1, 0),
    (LAST, LEAST_CODE, 0),
    (LAST, LEAST_CODE - 1, 0),
    (LAST, 0, 1),
    (FREE, 1, 0),
    (FREE, 0, 1),
    (FREE, 0, EMPTY),
    (FREE, 0, 1 << 28),
    // the first register and the last; a used bit goes before what else is wrong
    (0, 0, 0),
    (0, 65, 0),
    (0, 65, 1 << 30),
    (0, 0, EMPTY),
    (REGISTER, FIRST, EMPTY + FIRST + 2),
    (REGISTER, FIRST, EMPTY + FIRST + 3),
    (REGISTER, FIRST, EMPTY),
];

pub fn rows(rt: &HostRuntime) {
    for (cell, a, b) in ROWS {
        let _ = row(rt, cell, a, b);
    }
}
