// One cell written, or a run of cells copied.
ghost use Rattle.std.specs.Prelude.{◌≡◌, ◌+◌, ◌*◌, ◌≤◌, ◌<◌, length};
ghost use Rattle.meaning.specs.Limits.{limit};
ghost use Rattle.meaning.specs.Sound.{code, empty, ends};
ghost use Rattle.meaning.specs.Actions.{put, copy, copies};

// Cell c becomes a symbol, an empty bracket, or a bracket with the ends l and r.
#[tactic(auto, unfolding(meaning::specs::Actions::put))]
pub fn put_symbol(ws: &mut [u32], c: usize, a: u32)
    requires { 2 * c + 1 < length ws.old }
    ensures { ws.new ≡ put ws.old c (code a) }
{
    words::put_cell(ws, c, a, 0);
}

#[tactic(auto, unfolding(meaning::specs::Actions::put))]
pub fn put_empty(ws: &mut [u32], c: usize)
    requires { 2 * c + 1 < length ws.old }
    ensures { ws.new ≡ put ws.old c empty }
{
    words::put_cell(ws, c, 0, words::EMPTY);
}

#[tactic(auto, using(meaning::proofs::sound::Cells::limit_fits), unfolding(meaning::specs::Actions::put))]
pub fn put_ends(ws: &mut [u32], c: usize, l: usize, r: usize)
    requires c_in_bounds { 2 * c + 1 < length ws.old }
    requires l_le_r { (l ≤ r) × (r < limit) }
    ensures { ws.new ≡ put ws.old c (ends l r) }
{
    words::put_cell(ws, c, l as u32, words::bracket_to(r as u32));
}

// Cell c becomes equal to cell x.
#[tactic(auto, unfolding(meaning::specs::Actions::copy))]
pub fn copy_cell(ws: &mut [u32], c: usize, x: usize)
    requires { (2 * c + 1 < length ws.old) × (2 * x + 1 < length ws.old) }
    ensures { ws.new ≡ copy ws.old c x }
{
    let first = words::first_word(ws, x);
    let second = words::second_word(ws, x);
    words::put_cell(ws, c, first, second);
}

// The n cells from c on become equal to those from x on, the lowest first.
pub fn copy_cells(ws: &mut [u32], c: usize, x: usize, n: usize)
    requires { (2 * (c + n) ≤ length ws.old) × (2 * (x + n) ≤ length ws.old) }
    ensures { ws.new ≡ copies ws.old c x n }
{
    for i in 0..n {
        copy_cell(ws, c + i, x + i);
    }
}
