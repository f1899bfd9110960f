// The rows of SCOPE 7.2, and more at every edge. Each row writes a line: its name, then the number
// and the value that came back, then `top`, then the answers or words that it is about.
//
// The rows are written over the numbers of `meaning`, and any others prove as well. What they must write, the file
// stdout, is a text for 16 registers and the present limits: with other numbers, read what the program then writes and
// put it there.
#![tactic(auto)]

mod answers;
mod batches;
mod cells;
mod inputs;
mod lengths;
mod show;
mod stores;
mod tables;

use meaning::FIRST_HEAP_CELL;

// The cells of a small store: its heap has four.
const SMALL: usize = FIRST_HEAP_CELL + 4;

// The first heap cell and a small store's capacity as words.
const FIRST: u32 = FIRST_HEAP_CELL as u32;

const CAPACITY: u32 = SMALL as u32;

// What cannot be written is lost, and what comes after it is written all the same. The program ends with 0 in any case.
// Each array is as long as the longest row needs, so none is asked of an allocator.
fn main(rt: HostRuntime) {
    lengths::rows(&rt);
    cells::rows(&rt);
    batches::rows(&rt);
    stores::rows(&rt);
    inputs::rows(&rt);
}
