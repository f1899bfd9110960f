// The program's input at its edges: the number of bytes that it writes, and where they are few the bytes.
use crate::{CAPACITY, FIRST};
use meaning::{PROGRAM_BYTES as BYTES, PROGRAM_CELLS as CELLS};
use serve::OUTPUT;

// So many bytes, and a capacity.
const ROWS: [(usize, u32); 18] = [
    // under four bytes, and capacities; the last is one with its bytes the other way round
    (0, CAPACITY),
    (3, CAPACITY),
    (4, 0),
    (4, FIRST - 1),
    (4, FIRST),
    (4, CELLS as u32),
    (4, CELLS as u32 + 1),
    (4, u32::MAX),
    (4, CAPACITY << 24),
    // broken calls, too many of them, and both faults at once
    (5, CAPACITY),
    (19, CAPACITY),
    (20, CAPACITY),
    (21, CAPACITY),
    (BYTES, CAPACITY),
    (BYTES + 1, CAPACITY),
    (LONGEST, CAPACITY),
    (BYTES + 1, FIRST - 1),
    (5, FIRST - 1),
];

// The bytes of the longest input.
const LONGEST: usize = BYTES + 16;

// An input of so many bytes: a capacity, and CLEAR 0 as often as it goes.
fn row(rt: &HostRuntime, length: usize, capacity: u32) {
    let mut input = [0u8; LONGEST];
    input[..4].copy_from_slice(&capacity.to_le_bytes());
    let mut out = [0u8; OUTPUT];
    let written = serve::serve(&input[..length.min(LONGEST)], &mut out);
    let _ = print!(rt; "input {length} {capacity}: bytes {written}");
    if written < 32 {
        let _ = print!(rt; " ");
        let _ = rt.write_all(&out[..written]);
    } else {
        let _ = println!(rt);
    }
}

pub fn rows(rt: &HostRuntime) {
    for (length, capacity) in ROWS {
        row(rt, length, capacity);
    }
}
