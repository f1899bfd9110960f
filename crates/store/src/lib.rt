// A store lent as a slice of words: its check, a fresh store, a look at a register; and, for the crates above, what a
// cell of a sound store holds. The numbers of SCOPE 5.1 that an answer stands for are in specs/Answers.antt.
#![tactic(auto)]

ghost use Rattle.std.specs.Prelude.{◌≡◌, ◌+◌, ◌*◌, ◌≤◌, ◌<◌, length, take};
ghost use Rattle.meaning.specs.Limits.{first_heap_cell};
ghost use Rattle.meaning.specs.Sound.{at};
ghost use Rattle.meaning.specs.Check.{length_test, top_test};
ghost use Rattle.meaning.specs.Fresh.{empty_registers};
ghost use Rattle.store.specs.Answers.{rule_number, Placed, Checks, Makes, Looks};
ghost use Rattle.store.specs.Holds.{Bracketed, Termed, RunIs, TermIs};

pub mod cells;
mod passes;
pub mod register;

use register::Register;

// The rules of a cell, with their numbers (SCOPE 1.6).
#[derive(Clone, Copy, PartialEq, Eq)]
pub enum Rule {
    StrayBit = 1,
    NotBracket = 2,
    BadEmpty = 3,
    BadSymbol = 4,
    BadEnds = 5,
    BeyondTop = 6,
}

impl From<Rule> for u32 {
    ghost from_gives = { λ rule n. n ≡ rule_number rule };

    fn from(rule: Rule) -> u32 {
        rule as u32
    }
}

// Why a store is unsound: its length, its `top`, or its first damaged cell, with the rule that this breaks. Every
// answer that may refuse a store holds this as the check found it.
#[derive(Clone, Copy, PartialEq, Eq)]
pub enum Unsound {
    BadLength,
    BadTop,
    Damaged(usize, Rule),
}

#[tactic(auto, unfolding(meaning::specs::Check::length_test, meaning::specs::Limits::limit))]
fn length_ok(n: usize) -> bool
    ensures { result ≡ length_test first_heap_cell n }
{
    n % 2 == 0 && (2 * meaning::FIRST_HEAP_CELL..=2 * meaning::LIMIT).contains(&n)
}

#[tactic(auto, unfolding(meaning::specs::Check::top_test))]
fn top_ok(top: usize, cells: usize) -> bool
    ensures { result ≡ top_test first_heap_cell cells top }
{
    (meaning::FIRST_HEAP_CELL..=cells).contains(&top)
}

// The length, then `top`, then the cells. Passes that are never left find a sound store sound. In any other a scan from
// the lowest address up leaves by `break` at the first damaged cell, with its rule.
pub fn check(ws: &[u32], top: usize) -> Result<(), Unsound>
    ensures { Checks ws.now top result }
{
    if !length_ok(ws.len()) {
        return Err(Unsound::BadLength);
    }
    let cells = ws.len() / 2;
    if !top_ok(top, cells) {
        return Err(Unsound::BadTop);
    }
    if passes::all_ok(ws, top) {
        return Ok(());
    }
    'scan: {
        for c in 0..cells {
            let broken = cells::broken_rule(
                words::first_word(ws, c),
                words::second_word(ws, c),
                c,
                meaning::FIRST_HEAP_CELL,
                top,
            );
            if let Some(rule) = broken {
                break 'scan Err(Unsound::Damaged(c, rule));
            }
        }
        Ok(())
    }
}

// No fresh store can be made in the slice: its length is none that a store may have.
#[derive(Clone, Copy, PartialEq, Eq)]
pub struct BadLength;

// Every register becomes empty.
fn empty_registers(ws: &mut [u32])
    requires { 2 * first_heap_cell ≤ length ws.old }
    ensures { take (2 * first_heap_cell) ws.new ≡ empty_registers first_heap_cell }
{
    for c in 0..meaning::FIRST_HEAP_CELL {
        words::put_cell(ws, c, 0, words::EMPTY);
    }
}

// A fresh store, written into a slice of an allowed length; gives its `top`. Any other slice is left as it is.
pub fn fresh(ws: &mut [u32]) -> Result<usize, BadLength>
    ensures { Makes ws.old result ws.new }
{
    if !length_ok(ws.len()) {
        return Err(BadLength);
    }
    empty_registers(ws);
    words::zero_from(ws, 2 * meaning::FIRST_HEAP_CELL);
    Ok(meaning::FIRST_HEAP_CELL)
}

// The contents of a bracket: `size` cells from `start` on, or 0 and 0 where it is empty.
#[derive(Clone, Copy)]
pub struct Run {
    pub start: usize,
    pub size: usize,
}

// The contents of cell c, which is a bracket.
pub fn run_at(ws: &[u32], c: usize) -> Run
    requires c_in_bounds { 2 * c + 1 < length ws.now }
    requires bracketed { Bracketed ws.now c }
    ensures { RunIs result (at ws.now c) }
{
    let last = words::right_end(words::second_word(ws, c)) as usize;
    if last == 0 {
        return Run { start: 0, size: 0 };
    }
    let start = words::first_word(ws, c) as usize;
    let size = last + 1 - start;
    Run { start, size }
}

// A term: a symbol by its code, or a bracket by its contents.
#[derive(Clone, Copy)]
pub enum Term {
    Symbol(u32),
    Bracket(Run),
}

// The term of cell c, which is an occupied heap cell.
pub fn term_at(ws: &[u32], c: usize) -> Term
    requires c_in_bounds { 2 * c + 1 < length ws.now }
    requires termed { Termed ws.now c }
    ensures { TermIs result (at ws.now c) }
{
    if words::is_bracket(words::second_word(ws, c)) {
        return Term::Bracket(run_at(ws, c));
    }
    Term::Symbol(words::first_word(ws, c))
}

// A part of the store, by its words: `from` up to but not including `to`.
#[repr(C)]
#[derive(Clone, Copy)]
pub struct Span {
    pub from: usize,
    pub to: usize,
}

// Where the cells of a register lie; 0 to 0 for an empty register, a register that is none, or an unsound store.
pub fn look_span(ws: &[u32], top: usize, register: usize) -> Span
    ensures { Placed first_heap_cell ws.now top register result }
{
    let (Ok(()), Some(register)) = (check(ws, top), Register::new(register)) else {
        return Span { from: 0, to: 0 };
    };
    let held = run_at(ws, register.cell());
    let from = 2 * held.start;
    let to = from + 2 * held.size;
    Span { from, to }
}

// The part of the lent store that holds a register's cells, from its left end to its right end: not a copy of it, nor
// equal words at another place.
pub fn look(ws: &[u32], top: usize, register: usize) -> &[u32]
    ensures { Looks ws.entry top register result }
{
    let Span { from, to } = look_span(ws, top, register);
    &ws[from..to]
}
