// What the program writes for what it reads: the input's first word is a capacity and the others are calls; a batch of
// them is run on a fresh store, and its answers become lines. Nothing here reads or writes a file.
#![tactic(auto)]

mod running;
mod writing;

ghost use Rattle.std.specs.Prelude.{◌≡◌};
ghost use Rattle.serve.specs.Faults.{fault_number, Tested};
ghost use Rattle.serve.specs.Serves.{Serves};

use meaning::{PROGRAM_BYTES, PROGRAM_CELLS};

// The answers to the longest input: two to each call of 16 bytes, after the capacity's 4.
const ANSWERS: usize = (PROGRAM_BYTES - 4) / 8;

// Room for every output. Two answers are two words of at most ten digits with a space and the line's end, 22 bytes, so
// that 11 bytes do for one; `top `, a number of at most twenty digits and the line's end are 25.
pub const OUTPUT: usize = 11 * ANSWERS + 25;

// What is wrong with an input, with the number of its refusal.
#[derive(Clone, Copy)]
enum Fault {
    Capacity = 1,
    Length = 4,
}

impl From<Fault> for usize {
    ghost from_gives = { λ fault n. n ≡ fault_number fault };

    fn from(fault: Fault) -> usize {
        fault as usize
    }
}

// The capacity that an input names, if nothing is wrong with it: the capacity is tested first, then the length.
fn capacity_of(input: &[u8]) -> Result<usize, Fault>
    ensures { Tested input.now result }
{
    if input.len() < 4 {
        return Err(Fault::Capacity); // none
    }
    let cells = octets::reading::word(input, 0) as usize;
    if cells < meaning::FIRST_HEAP_CELL {
        return Err(Fault::Capacity); // too few cells
    }
    if PROGRAM_CELLS < cells {
        return Err(Fault::Capacity); // too many cells
    }
    if PROGRAM_BYTES < input.len() {
        return Err(Fault::Length); // too many calls
    }
    if (input.len() - 4) % 16 != 0 {
        return Err(Fault::Length); // a broken call
    }
    Ok(cells)
}

// Writes what the program has to write to the start of `out`, leaves the rest of it, and gives the number of bytes.
pub fn serve(input: &[u8], out: &mut [u8; OUTPUT]) -> usize
    ensures { Serves input.now out.old result out.new }
{
    match capacity_of(input) {
        Ok(cells) => running::serve_calls(cells, input, out),
        Err(fault) => writing::refuse(out, usize::from(fault)),
    }
}
