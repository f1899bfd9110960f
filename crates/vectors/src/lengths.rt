// Store lengths, a fresh store in each, and `top`.
use crate::{SMALL, answers, cells};
use meaning::{FIRST_HEAP_CELL, LIMIT};
use std::io;

// The words of the longest slice.
const WORDS: usize = 2 * LIMIT + 2;

// A fresh store in so many words, and the check of what it leaves.
fn length_row(rt: &HostRuntime, length: usize) -> io::Result<()> {
    let mut words = [0u32; WORDS];
    let ws = &mut words[..length.min(WORDS)];
    let made = answers::made(store::fresh(ws));
    let found = answers::checked(store::check(ws, FIRST_HEAP_CELL));
    let status = made.verdict.status;
    let top = made.top;
    println!(rt; "length {length}: fresh {status} top {top}, check {found}")
}

// A store of symbols up to `top`, and zeros from there on.
fn top_row(rt: &HostRuntime, top: usize) -> io::Result<()> {
    let mut ws = [0u32; 2 * SMALL];
    let _ = store::fresh(&mut ws);
    cells::fill(&mut ws, top);
    let found = answers::checked(store::check(&ws, top));
    println!(rt; "top {top} of {SMALL}: check {found}")
}

fn lengths(rt: &HostRuntime) {
    for length in [
        0,
        2 * FIRST_HEAP_CELL - 2,
        2 * FIRST_HEAP_CELL,
        2 * FIRST_HEAP_CELL + 1,
        2 * LIMIT,
        2 * LIMIT + 1,
        2 * LIMIT + 2,
    ] {
        let _ = length_row(rt, length);
    }
}

fn tops(rt: &HostRuntime) {
    for top in [
        0,
        FIRST_HEAP_CELL - 1,
        FIRST_HEAP_CELL,
        SMALL,
        SMALL + 1,
        usize::MAX,
    ] {
        let _ = top_row(rt, top);
    }
}

pub fn rows(rt: &HostRuntime) {
    lengths(rt);
    tops(rt);
}
