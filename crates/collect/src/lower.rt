// The pass up over what the sweep has packed against `top`: every heap cell and both its ends go down by as much. So do
// the registers' ends, and the cells that have come free become zeros.
ghost use Rattle.std.specs.Prelude.{◌*◌, ◌≤◌, length};
ghost use Rattle.collect.specs.Lowering.{Layable, Lays, Lowerable, Lowers, Cleared};

// Puts the cell with the words a and w down at `to`, with its ends d lower.
fn lay(ws: &mut [u32], to: usize, a: u32, w: u32, d: u32)
    requires { Layable ws.old to a w d }
    ensures { Lays ws.old ws.new to a w d }
{
    if words::is_full(w) {
        words::put_cell(ws, to, a - d, words::bracket_to(words::right_end(w) - d));
    } else {
        words::put_cell(ws, to, a, w);
    }
}

// The cells from `low` up to `high`, the lowest first, go down by `by` cells, and their ends by d cells.
pub fn lower(ws: &mut [u32], low: usize, high: usize, by: usize, d: u32)
    requires { Lowerable ws.old low high by d }
    ensures { Lowers ws.old ws.new low high by d }
{
    for i in low..high {
        let a = words::first_word(ws, i);
        let w = words::second_word(ws, i);
        lay(ws, i - by, a, w, d);
    }
}

// Zeroes the cells from m up to n.
pub fn clear(ws: &mut [u32], m: usize, n: usize)
    requires { (m ≤ n) × (2 * n ≤ length ws.old) }
    ensures { Cleared ws.old ws.new m n }
{
    ws[2 * m..2 * n].fill(0);
}
