// Passes over the cells of a store whose length and `top` are right. A pass gathers what fails in one word and is never
// left, so that the compiler can test several cells at a time. It says whether a cell is damaged, and not which.
ghost use Rattle.std.specs.Prelude.{◌≡◌, ◌↔◌, true, ℕ, ◌+◌, ◌*◌, ◌^◌, ◌≤◌, ◌<◌, bit_or, length};
ghost use Rattle.std.specs.List.{fold};
ghost use Rattle.words.specs.Cell.{first_word, second_word};
ghost use Rattle.meaning.specs.Limits.{first_heap_cell};
ghost use Rattle.meaning.specs.Sound.{capacity, IsBracket, IsTerm};
ghost use Rattle.store.specs.Passing.{Tested, Passed};

use super::cells;

// Whether every cell from `low` up to `high` passes the test.
fn all_pass<F: Fn(usize) -> bool>(low: usize, high: usize, test: F) -> bool
    requires { (c : ℕ) → low ≤ c → c < high → F.pre test c }
    ensures { Tested (F.post test) low high result }
{
    let mut damage: u32 = 0;
    for c in low..high {
        damage |= (!test(c)) as u32;
    }
    damage == 0
}

// Whether every register is a bracket whose ends lie below `top`.
fn registers_ok(ws: &[u32], top: usize) -> bool
    requires { (2 * first_heap_cell ≤ length ws.now) × (first_heap_cell ≤ top) × (top < 2 ^ 31) }
    ensures { Passed first_heap_cell ws.now top 0 first_heap_cell result }
{
    all_pass(0, meaning::FIRST_HEAP_CELL, |c| {
        cells::bracket_ok(
            words::first_word(ws, c),
            words::second_word(ws, c),
            meaning::FIRST_HEAP_CELL as u32,
            top as u32,
        )
    })
}

// Whether every occupied heap cell is a symbol, or a bracket whose ends lie below it.
fn heap_ok(ws: &[u32], top: usize) -> bool
    requires { (2 * top ≤ length ws.now) × (top < 2 ^ 31) }
    ensures { Passed first_heap_cell ws.now top first_heap_cell top result }
{
    all_pass(meaning::FIRST_HEAP_CELL, top, |c| {
        cells::term_ok(
            words::first_word(ws, c),
            words::second_word(ws, c),
            meaning::FIRST_HEAP_CELL as u32,
            c as u32,
        )
    })
}

// What the words are, OR-ed.
fn gathered(words: &[u32]) -> u32
    ensures { result ≡ fold bit_or 0 words.now }
{
    words.iter().fold(0, |all, w| all | *w)
}

// Whether every word of the free cells is zero.
fn free_ok(ws: &[u32], top: usize) -> bool
    requires { (first_heap_cell ≤ top) × (2 * top ≤ length ws.now) }
    ensures { Passed first_heap_cell ws.now top top (capacity ws.now) result }
{
    gathered(&ws[2 * top..]) == 0
}

// Whether every cell keeps its rule.
pub fn all_ok(ws: &[u32], top: usize) -> bool
    requires { (first_heap_cell ≤ top) × (2 * top ≤ length ws.now) × (top < 2 ^ 31) }
    ensures { Passed first_heap_cell ws.now top 0 (capacity ws.now) result }
{
    registers_ok(ws, top) && heap_ok(ws, top) && free_ok(ws, top)
}
