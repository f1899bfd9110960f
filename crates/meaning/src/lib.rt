// The numbers that the code shares with the definitions of this crate. Each stands here once, and once in
// specs/Limits.antt.
#![tactic(auto)]

// The first heap cell; the registers are the cells below it.
pub const FIRST_HEAP_CELL: usize = 16;

// The most cells that a store may have.
pub const LIMIT: usize = 4096;

// The least code of a symbol, and the largest.
pub const LEAST_CODE: u32 = 1;

pub const CODE_LIMIT: u32 = 268435455;

// The most brackets that may be open at one place of a text.
pub const DEPTH_LIMIT: usize = 64;

// The most terms that a text may have, on all levels.
pub const TERMS_LIMIT: usize = 65536;

// The longest call list, in words.
pub const CALL_WORDS: usize = 4096;

// The program's own most cells, and its longest input in bytes.
pub const PROGRAM_CELLS: usize = 4096;

pub const PROGRAM_BYTES: usize = 16388;

// The kinds of file, by edition: the first heap cell of its stores, or 0 where there is no such edition.
pub const KINDS: [usize; 2] = [0, FIRST_HEAP_CELL];

// The edition that is written.
pub const EDITION: u32 = 1;
