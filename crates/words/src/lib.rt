// A cell's two words. This is the only crate that knows which bit says what: the second word is taken apart and put
// together here, by masks and shifts, and the cells of a lent slice are read and written here. The mark, bit 30, is
// never set: it is 0 between calls, and the collector needs none.
#![tactic(auto)]

ghost use Rattle.std.specs.Prelude.{◌≡◌, true, false, ◌++◌, ◌+◌, ◌-◌, ◌*◌, ◌≤◌, ◌<◌, ◌^◌, length, take, replicate};
ghost use Rattle.words.specs.Cell.{first_word, second_word, put_cell};
ghost use Rattle.words.specs.Second.{decode, with_ri, with_lc, with_rc, plain, stray, full_word, bracket_to};

const BRACKET: u32 = 1 << 31;

const USED: u32 = 1 << 30;

const LEFT_CHAIN: u32 = 1 << 29;

const RIGHT_CHAIN: u32 = 1 << 28;

const RIGHT_END: u32 = 0x0fff_ffff;

// The second word of an empty bracket.
pub const EMPTY: u32 = 1 << 31;

pub fn is_bracket(w: u32) -> bool
    ensures { result ≡ (decode w).br }
{
    w & BRACKET != 0
}

pub fn has_left_chain(w: u32) -> bool
    ensures { result ≡ (decode w).lc }
{
    w & LEFT_CHAIN != 0
}

// Whether w has a mark or a chain flag.
pub fn is_stray(w: u32) -> bool
    ensures { result ≡ stray (decode w) }
{
    (w & USED != 0) | (w & LEFT_CHAIN != 0) | (w & RIGHT_CHAIN != 0)
}

#[tactic(auto, unfolding(crate::specs::Second::decode))]
pub fn right_end(w: u32) -> u32
    ensures { result ≡ (decode w).ri }
{
    w & RIGHT_END
}

// Whether w, a second word without mark and chains, is that of a bracket with contents.
pub fn is_full(w: u32) -> bool
    requires { decode w ≡ plain (decode w).br (decode w).ri }
    ensures { result ≡ full_word w }
{
    EMPTY < w
}

// The second word, between calls, of a bracket with the right end r.
pub fn bracket_to(r: u32) -> u32
    requires { r < 2 ^ 28 }
    ensures { result ≡ bracket_to r }
{
    BRACKET | r
}

pub fn set_left_chain(w: u32) -> u32
    ensures { decode result ≡ with_lc true (decode w) }
{
    w | LEFT_CHAIN
}

// Two steps of a chain hand a link, an address with its chain flag, from one field to another (SCOPE 3.4).

// w with the right end a, chained on if the left end of the cell with the second word b was: lc(b) becomes rc(w).
pub fn take_left_link(w: u32, a: u32, b: u32) -> u32
    requires { a < 2 ^ 28 }
    ensures { decode result ≡ with_ri a (with_rc (decode b).lc (decode w)) }
{
    (w & !(RIGHT_CHAIN | RIGHT_END)) | ((b & LEFT_CHAIN) >> 1) | a
}

// w with the left end chained on if the right end of the cell with the second word b was: rc(b) becomes lc(w).
pub fn take_right_link(w: u32, b: u32) -> u32
    ensures { decode result ≡ with_lc (decode b).rc (decode w) }
{
    (w & !LEFT_CHAIN) | ((b & RIGHT_CHAIN) << 1)
}

// w with the right end r, on no chain.
pub fn with_right_end(w: u32, r: u32) -> u32
    requires { r < 2 ^ 28 }
    ensures { decode result ≡ with_ri r (with_rc false (decode w)) }
{
    (w & !(RIGHT_CHAIN | RIGHT_END)) | r
}

// The words of cell c.
pub fn first_word(ws: &[u32], c: usize) -> u32
    requires { 2 * c + 1 < length ws.now }
    ensures { result ≡ first_word ws.now c }
{
    ws[2 * c]
}

pub fn second_word(ws: &[u32], c: usize) -> u32
    requires { 2 * c + 1 < length ws.now }
    ensures { result ≡ second_word ws.now c }
{
    ws[2 * c + 1]
}

pub fn put_cell(ws: &mut [u32], c: usize, first: u32, second: u32)
    requires { 2 * c + 1 < length ws.old }
    ensures { ws.new ≡ put_cell ws.old c first second }
{
    ws[2 * c] = first;
    ws[2 * c + 1] = second;
}

// The words from `from` on become zero, of a store or of other words.
pub fn zero_from(ws: &mut [u32], from: usize)
    requires { from ≤ length ws.old }
    ensures { ws.new
        ≡ take from ws.old ++ replicate (length ws.old - from) 0 }
{
    ws[from..].fill(0);
}
