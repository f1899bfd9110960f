// Chains: a holder of cell k is a register or reached bracket whose right end is k. The chain of k starts in its first
// word, under lc, and runs through the right ends of its holders, under rc; the last carries k's own first word.
ghost use Rattle.collect.specs.Passes.{Linkable, Links, MyTurn, Releases};

// Puts the bracket with the words a and w down at m, with its length less one in place of its left end, and m at the
// head of the chain of its right end.
pub fn link(ws: &mut [u32], m: usize, a: u32, w: u32)
    requires { Linkable ws.old m a w }
    ensures { Links ws.old ws.new m a w }
{
    let r = words::right_end(w);
    let k = r as usize;
    let b = words::first_word(ws, k);
    let v = words::second_word(ws, k);
    words::put_cell(ws, m, r - a, words::take_left_link(w, b, v));
    words::put_cell(ws, k, m as u32, words::set_left_chain(v));
}

// A cell's own two words, and the lowest cell known to be reached.
#[derive(Clone, Copy)]
pub struct Released {
    pub first: u32,
    pub second: u32,
    pub low: usize,
}

// Undoes the chain of c, whose second word is w: each holder gets the right end `to` and a left end as far below it as
// it was. All that it holds is known from then on. It ends because each turn takes a chain flag away.
pub fn release(ws: &mut [u32], c: usize, w: u32, to: u32, mut low: usize) -> Released
    requires { MyTurn ws.old c w to low }
    ensures { Releases ws.old ws.new c w to low result.first result.second result.low }
{
    let mut first = words::first_word(ws, c);
    let mut second = w;
    while words::has_left_chain(second) {
        let k = first as usize;
        let n = words::first_word(ws, k);
        let b = words::second_word(ws, k);
        words::put_cell(ws, k, to - n, words::with_right_end(b, to));
        first = words::right_end(b);
        second = words::take_right_link(second, b);
        low = (c - n as usize).min(low);
    }
    Released { first, second, low }
}
