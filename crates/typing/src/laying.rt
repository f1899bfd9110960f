// A text that has been read whole is laid in the free cells of a store, one cell a term, in one pass over its bytes.
// The cells from `low` up to but not including `high` are free. What is laid grows up from `low`. The cells of an
// expression's own terms wait below `high`, the first of them highest, until the contents of all its brackets are laid;
// then they are turned round into their place.
//
// The two functions call each other, as deep as brackets stand within one another. `left` says how deep that may be:
// the text has no more brackets within one another, so from DEPTH_LIMIT on they are never more than that many deep.
ghost use Rattle.typing.specs.Laying.{CanLay, CanLayTerm, IsLaid, TermIsLaid};

use crate::cells::{put_last, turn};
use crate::scanning::{goes_on, number, opened, past_bracket, past_space};
use build::cells::put_symbol;

// What is left behind an expression's text, the cell after its cells, and the number of its own terms, which are the
// last of those cells.
#[derive(Clone, Copy)]
pub struct Laid<'a> {
    pub rest: &'a [u8],
    pub end: usize,
    pub terms: usize,
}

// The expression whose text comes next.
#[cycle(lay_lay_term)]
pub fn lay<'a>(ws: &mut [u32], text: &'a [u8], low: usize, high: usize, left: usize) -> Laid<'a>
    requires { CanLay ws.old text.now low high left }
    ensures { IsLaid ws.old text.now low high left result ws.new }
{
    let mut rest = text;
    let mut end = low;
    let mut wait = high;
    while goes_on(rest) {
        (rest, end) = lay_term(ws, rest, end, wait, left);
        wait -= 1;
    }
    let terms = high - wait;
    turn(ws, end, high, terms);
    Laid {
        rest,
        end: end + terms,
        terms,
    }
}

// The term whose text comes next: the contents of a bracket are laid, and the term's own cell waits. What is left where
// the next term begins or the expression ends, and the cell after those that are laid.
#[cycle(lay_lay_term)]
fn lay_term<'a>(
    ws: &mut [u32],
    text: &'a [u8],
    low: usize,
    high: usize,
    left: usize,
) -> (&'a [u8], usize)
    requires { CanLayTerm ws.old text.now low high left }
    ensures { TermIsLaid ws.old text.now low high left result.0.now result.1 ws.new }
{
    let own = high - 1;
    if let Some(within) = opened(text) {
        let inner = lay(ws, within, low, own, left - 1);
        put_last(ws, own, inner.end, inner.terms);
        return (past_bracket(inner.rest), inner.end);
    }
    let (code, rest) = number(text);
    put_symbol(ws, own, code);
    (past_space(rest), low)
}
