// Cells of a store turned round in place, and a bracket around the last of them.
ghost use Rattle.std.specs.Prelude.{◌≡◌, ◌+◌, ◌*◌, ◌≤◌, ◌<◌, length};
ghost use Rattle.meaning.specs.Limits.{limit};
ghost use Rattle.meaning.specs.Lay.{last_below};
ghost use Rattle.meaning.specs.Actions.{put};
ghost use Rattle.typing.specs.Cells.{Swapped, Turned};

use build::cells::{put_empty, put_ends};

// Cells i and j change places.
fn swap_cells(ws: &mut [u32], i: usize, j: usize)
    requires { (2 * i + 1 < length ws.old) × (2 * j + 1 < length ws.old) }
    ensures { Swapped ws.old i j ws.new }
{
    ws.swap(2 * i, 2 * j);
    ws.swap(2 * i + 1, 2 * j + 1);
}

// The n cells below `high` come to lie from `low` on, the highest first. Where the two runs overlap, all cells from
// `low` up to `high` are turned round; else each cell changes places with its own.
pub fn turn(ws: &mut [u32], low: usize, high: usize, n: usize)
    requires { (low + n ≤ high) × (2 * high ≤ length ws.old) }
    ensures { Turned ws.old low high n ws.new }
{
    for i in 0..n.min((high - low) / 2) {
        swap_cells(ws, low + i, high - 1 - i);
    }
}

// Cell c becomes a bracket around the last n cells below `end`.
pub fn put_last(ws: &mut [u32], c: usize, end: usize, n: usize)
    requires c_in_bounds { 2 * c + 1 < length ws.old }
    requires n_le_end { (n ≤ end) × (end ≤ limit) }
    ensures { ws.new ≡ put ws.old c (last_below end n) }
{
    if n == 0 {
        put_empty(ws, c);
    } else {
        put_ends(ws, c, end - n, end - 1);
    }
}
