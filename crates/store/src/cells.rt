// The rules of one cell, over its two words and the first heap cell of its store: as tests, and as the first rule that
// is broken. A test that a pass over many cells makes compiles to no branch, so that several are tested at a time.
ghost use Rattle.std.specs.Prelude.{◌≡◌, ◌↔◌, true, ◌≤◌, ◌<◌, ◌^◌};
ghost use Rattle.meaning.specs.Limits.{code_test};
ghost use Rattle.meaning.specs.Sound.{IsBracket, IsTerm};
ghost use Rattle.meaning.specs.Check.{bracket_rule, below_rule, broken_rule};
ghost use Rattle.store.specs.Answers.{broken_number};

use super::Rule;

// Whether a is a symbol's code.
#[tactic(auto, unfolding(meaning::specs::Limits::code_test))]
pub fn is_code(a: u32) -> bool
    ensures { result ≡ code_test a }
{
    (meaning::LEAST_CODE..=meaning::CODE_LIMIT).contains(&a)
}

// Whether a and b are the words of a bracket: empty, or with ends from `first` on and below `bound`. What is left of b
// without its bracket bit is the right end; a flag more, or no bracket bit, makes it larger than any bound.
pub fn bracket_ok(a: u32, b: u32, first: u32, bound: u32) -> bool
    requires { bound < 2 ^ 31 }
    ensures { (result ≡ true) ↔ IsBracket first bound a b }
{
    let r = b ^ words::EMPTY;
    let empty = (b == words::EMPTY) & (a == 0);
    let full = (first <= a) & (a <= r) & (r < bound);
    empty | full
}

// Whether a and b are the words of the occupied heap cell c.
pub fn term_ok(a: u32, b: u32, first: u32, c: u32) -> bool
    requires { c < 2 ^ 31 }
    ensures { (result ≡ true) ↔ IsTerm first c a b }
{
    ((b == 0) & is_code(a)) | bracket_ok(a, b, first, c)
}

// Whether a and b break no rule as those of cell c: a register, an occupied heap cell, or a free one. It is the quick
// question of a scan over cells that are mostly right; `broken_rule` then tells what is wrong with the one that is not.
pub fn cell_ok(a: u32, b: u32, c: usize, first: usize, top: usize) -> bool
    requires { (first ≤ top) × (top ≤ 2 ^ 28) }
    ensures { (result ≡ true) ↔ (broken_rule first top c a b ≡ 0) }
{
    if c < first {
        return bracket_ok(a, b, first as u32, top as u32);
    }
    if c < top {
        return term_ok(a, b, first as u32, c as u32);
    }
    (a == 0) & (b == 0)
}

// The rule that a bracket with the ends a and r breaks, where they lie from `first` on and below `bound`.
#[tactic(auto, unfolding(meaning::specs::Check::bracket_rule))]
fn bracket_rule(a: usize, r: usize, first: usize, bound: usize) -> Option<Rule>
    ensures { broken_number result ≡ bracket_rule first bound a r }
{
    if r == 0 {
        if a == 0 {
            return None;
        }
        return Some(Rule::BadEmpty);
    }
    if (first <= a) & (a <= r) & (r < bound) {
        return None;
    }
    Some(Rule::BadEnds)
}

// The rule that the words a and b of cell c below `top` break, without a stray bit in b.
#[tactic(auto, unfolding(meaning::specs::Check::below_rule))]
fn below_rule(a: u32, b: u32, c: usize, first: usize, top: usize) -> Option<Rule>
    ensures { broken_number result ≡ below_rule first top c a b }
{
    if b < words::EMPTY {
        if c < first {
            return Some(Rule::NotBracket);
        }
        if is_code(a) & (b == 0) {
            return None;
        }
        return Some(Rule::BadSymbol);
    }
    let r = (b - words::EMPTY) as usize;
    if c < first {
        return bracket_rule(a as usize, r, first, top);
    }
    bracket_rule(a as usize, r, first, c)
}

// The first rule that the words a and b break as those of cell c: a register, an occupied heap cell, or a free one.
#[tactic(auto, unfolding(meaning::specs::Check::broken_rule))]
pub fn broken_rule(a: u32, b: u32, c: usize, first: usize, top: usize) -> Option<Rule>
    ensures { broken_number result ≡ broken_rule first top c a b }
{
    if words::is_stray(b) {
        return Some(Rule::StrayBit);
    }
    if c < top {
        return below_rule(a, b, c, first, top);
    }
    if (a == 0) & (b == 0) {
        return None;
    }
    Some(Rule::BeyondTop)
}
