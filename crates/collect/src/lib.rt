// The collector by chains (SCOPE 3.4), in place, without a second array and without recursion. References in the
// heap point down and registers never move, so one sweep down can find what is reached, link and mend; one pass up then
// moves the cells.
//
//     Sound ──Sweeps──> packed against `top` ──Lowers──> packed low ──Lowers──> registers too ──Cleared──> Sound
//
// In the sweep a bracket is, in turn: as it was; on the chain of its right end, with its length less one in place of
// its left end; off that chain, both ends mended. No cell is marked: what has a chain, or lies within a run, is
// reached.
//
// Sweeps   the reached cells lie in order below `top`, without gaps, and both ends of a reference are where the cells
//          that it named lie now.
// Lowers   they have moved down to the first heap cell, and their ends by as much; then the registers' ends have.
// Cleared  the cells that have come free are zero.
// Sweeps is a definition of specs/Passes.antt, the others of specs/Lowering.antt; the phases within the sweep are in
// specs/Phases.antt.
#![tactic(auto)]

ghost use Rattle.std.specs.Prelude.{◌≡◌, cond, ◌-◌, ltb};
ghost use Rattle.meaning.specs.Limits.{first_heap_cell};
ghost use Rattle.meaning.specs.Sound.{Sound};
ghost use Rattle.meaning.specs.Reach.{live};
ghost use Rattle.meaning.specs.Collected.{collected, collected_top};
ghost use Rattle.collect.specs.Answers.{Collects};

use store::Unsound;

mod chains;
mod lower;
mod sweep;

// Collects a sound store and gives the new `top`.
pub fn collect_sound(ws: &mut [u32], top: usize) -> usize
    requires { Sound first_heap_cell ws.old top }
    ensures { (ws.new ≡ collected first_heap_cell ws.old top)
        × (result ≡ collected_top first_heap_cell ws.old top) }
{
    let dead = sweep::sweep(ws, top, |n| n);
    if dead == 0 {
        return top;
    }
    let d = dead as u32;
    lower::lower(ws, meaning::FIRST_HEAP_CELL + dead, top, dead, d);
    lower::lower(ws, 0, meaning::FIRST_HEAP_CELL, 0, d);
    lower::clear(ws, top - dead, top);
    top - dead
}

// The number of reached heap cells of a sound store. Every word ends as it began.
pub fn live(ws: &mut [u32], top: usize) -> usize
    requires { Sound first_heap_cell ws.old top }
    ensures { (ws.new ≡ ws.old) × (result ≡ live first_heap_cell ws.old top) }
{
    let dead = sweep::sweep(ws, top, |_| 0);
    top - meaning::FIRST_HEAP_CELL - dead
}

// Collects a sound store if that frees as many cells as are wanted; else every word stays as it is. Gives the collected
// store's `top` either way. The sweep that packs moves nothing before it has met an unreached cell: where one is enough
// it tells and packs at once. Where more are wanted, a sweep that packs nothing tells first.
pub fn collect_for(ws: &mut [u32], top: usize, wanted: usize) -> usize
    requires { Sound first_heap_cell ws.old top }
    ensures { (ws.new ≡ cond (ltb (top - result) wanted) ws.old
        (collected first_heap_cell ws.old top)) × (result ≡ collected_top first_heap_cell ws.old top) }
{
    if wanted <= 1 {
        return collect_sound(ws, top);
    }
    let low = meaning::FIRST_HEAP_CELL + live(ws, top);
    if top - low < wanted {
        return low;
    }
    collect_sound(ws, top)
}

// What collecting answers: live, and the new `top`.
#[derive(Clone, Copy, PartialEq, Eq)]
pub struct Collected {
    pub live: usize,
    pub top: usize,
}

// Collects any store that is sound; every other is left as it was lent.
pub fn collect(ws: &mut [u32], top: usize) -> Result<Collected, Unsound>
    ensures { Collects ws.old top result ws.new }
{
    store::check(ws, top)?;
    let new = collect_sound(ws, top);
    Ok(Collected {
        live: new - meaning::FIRST_HEAP_CELL,
        top: new,
    })
}
