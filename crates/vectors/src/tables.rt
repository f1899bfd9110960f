// Batches whose calls are written out: 0 CLEAR, 1 COPY, 2 SYMBOL, 3 WRAP, 4 JOIN, 5 HEAD, 6 REST, 7 OPEN, 8 LENGTH,
// 9 FIRST, 10 LIVE, 11 COLLECT, each with three more numbers. Registers are 0 to 4.
use crate::{CAPACITY, FIRST, batches};
use meaning::LIMIT;

// A name, the capacity of its store, and its calls.
pub type Row = (&'static str, u32, &'static [[u32; 4]]);

pub const OPERANDS: [Row; 2] = [
    (
        "unused words",
        CAPACITY,
        &[
            [0, 0, 1, 0],
            [0, 0, 0, 1],
            [1, 0, 0, 1],
            [8, 1, 0, 0],
            [10, 1, 0, 0],
            [11, 0, 0, 1],
        ],
    ),
    (
        "operations",
        CAPACITY,
        &[[11, 0, 0, 0], [12, 99, 0, 0], [u32::MAX, 0, 0, 0]],
    ),
];

pub const TERMS: [Row; 11] = [
    (
        "an empty register",
        CAPACITY,
        &[
            [5, 0, 0, 0],
            [6, 0, 0, 0],
            [7, 0, 0, 0],
            [9, 0, 0, 0],
            [8, 0, 0, 0],
            [3, 1, 0, 0],
        ],
    ),
    (
        "one symbol",
        CAPACITY,
        &[
            [2, 0, 65, 0],
            [5, 1, 0, 0],
            [9, 0, 1, 0],
            [7, 2, 1, 0],
            [6, 1, 1, 0],
            [8, 0, 1, 0],
        ],
    ),
    (
        "in parentheses",
        CAPACITY,
        &[
            [2, 0, 65, 0],
            [3, 1, 0, 0],
            [9, 0, 1, 0],
            [7, 2, 1, 0],
            [9, 0, 2, 0],
            [8, 0, 1, 0],
        ],
    ),
    (
        "joined",
        CAPACITY,
        &[
            [2, 0, 65, 0],
            [3, 1, 0, 0],
            [4, 0, 0, 1],
            [8, 0, 0, 0],
            [6, 0, 0, 0],
            [9, 0, 0, 0],
        ],
    ),
    (
        "joined with nothing",
        FIRST + 1,
        &[
            [2, 0, 65, 0],
            [4, 1, 0, 2],
            [4, 3, 2, 0],
            [1, 4, 3, 0],
            [10, 0, 0, 0],
            [8, 0, 4, 0],
        ],
    ),
    // with little room
    (
        "no heap cell",
        FIRST,
        &[[2, 0, 1, 0], [3, 0, 0, 0], [4, 0, 0, 0]],
    ),
    (
        "the old expression goes",
        FIRST + 1,
        &[[2, 0, 65, 0], [2, 0, 66, 0], [9, 0, 0, 0]],
    ),
    (
        "and is dead afterwards",
        FIRST + 2,
        &[[2, 0, 65, 0], [2, 0, 66, 0], [9, 0, 0, 0]],
    ),
    (
        "no room, and collected",
        FIRST + 2,
        &[[2, 0, 65, 0], [2, 0, 66, 0], [4, 1, 0, 0], [10, 0, 0, 0]],
    ),
    (
        "just room, once collected",
        FIRST + 2,
        &[[2, 0, 65, 0], [2, 0, 66, 0], [3, 1, 0, 0], [10, 0, 0, 0]],
    ),
    (
        "collected twice",
        LIMIT as u32,
        &[
            [2, 0, 65, 0],
            [4, 0, 0, 0],
            [4, 0, 0, 0],
            [11, 0, 0, 0],
            [11, 0, 0, 0],
            [8, 0, 0, 0],
        ],
    ),
];

// On a fresh store, with two answer words for each call.
pub fn rows(rt: &HostRuntime, table: &[Row]) {
    for (name, capacity, calls) in table {
        batches::fresh_batch(rt, name, *capacity, calls.as_flattened(), 2 * calls.len());
    }
}
