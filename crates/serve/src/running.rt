// A batch on a fresh store in a buffer of the program's own. Each function lends its arrays once, to the next one.
ghost use Rattle.std.specs.Prelude.{◌≡◌, [], ◌++◌, ◌+◌, ◌*◌, ◌≤◌, length, drop};
ghost use Rattle.octets.specs.Little.{words_of};
ghost use Rattle.meaning.specs.Limits.{first_heap_cell};
ghost use Rattle.meaning.specs.Sound.{capacity};
ghost use Rattle.meaning.specs.Program.{lines_of, output};
ghost use Rattle.serve.specs.Front.{Front};
ghost use Rattle.serve.specs.Lines.{top_line};
ghost use Rattle.serve.specs.Needs.{BatchFits, CallsFit, InputFits};

use crate::{ANSWERS, writing};
use meaning::{PROGRAM_BYTES, PROGRAM_CELLS};

// Makes the store, runs the calls and gives the last `top`. Neither refuses: what is lent is as they ask.
fn run_fresh(ws: &mut [u32], calls: &[u32], answers: &mut [u32]) -> usize
    requires { BatchFits ws.old calls.now answers.old }
    ensures { lines_of answers.new ++ top_line result
        ≡ output first_heap_cell (capacity ws.old) calls.now }
{
    let top = store::fresh(ws).unwrap_or(0);
    calls::run(ws, top, calls, answers).unwrap_or(top)
}

// The same, and the lines of it.
fn report_fresh(ws: &mut [u32], calls: &[u32], answers: &mut [u32], out: &mut [u8]) -> usize
    requires batch_fits { BatchFits ws.old calls.now answers.old }
    requires answers_in_bounds { 11 * length answers.old + 25 ≤ length out.old }
    ensures { Front out.old (output first_heap_cell (capacity ws.old) calls.now)
        out.new result }
{
    let top = run_fresh(ws, calls, answers);
    writing::report(out, answers, top)
}

// A store of `cells` cells is a part of a buffer of zeros.
fn serve_words(cells: usize, calls: &[u32], out: &mut [u8]) -> usize
    requires { CallsFit cells calls.now (length out.old) }
    ensures { Front out.old (output first_heap_cell cells calls.now) out.new result }
{
    let mut buffer = [0u32; 2 * PROGRAM_CELLS];
    let mut answers = [0u32; ANSWERS];
    let n = calls.len() / 4 * 2;
    report_fresh(&mut buffer[..2 * cells], calls, &mut answers[..n], out)
}

// The input's words are read, and those after the capacity are the calls.
pub fn serve_calls(cells: usize, input: &[u8], out: &mut [u8]) -> usize
    requires { InputFits cells (length input.now) (length out.old) }
    ensures { Front out.old (output first_heap_cell cells (drop 1 (words_of input.now)))
        out.new result }
{
    let mut words = [0u32; PROGRAM_BYTES / 4];
    octets::reading::fill_words(&mut words, input);
    let n = input.len() / 4;
    serve_words(cells, &words[1..n], out)
}
