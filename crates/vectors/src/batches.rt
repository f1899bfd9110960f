// Batches: call lists, operand words, terms and room.
use crate::show::Words;
use crate::{CAPACITY, FIRST, answers, tables};
use meaning::{CALL_WORDS as LIST, CODE_LIMIT, LEAST_CODE, LIMIT};

// The answers to the longest call list.
const ANSWERS: usize = LIST / 2;

// The words, if they are few.
fn few(words: &[u32]) -> &[u32] {
    if words.len() <= 64 { words } else { &[] }
}

// A batch on a store as it stands, with its answers to the end of the row, if they are few. `top` after it comes back.
pub fn batch(
    rt: &HostRuntime,
    name: &str,
    ws: &mut [u32],
    top: usize,
    calls: &[u32],
    space: &mut [u32],
) -> usize {
    let ran = answers::ran(calls::run(ws, top, calls, space), top);
    let shown = Words(few(space));
    let _ = println!(rt; "{name}: batch {ran} answers{shown}");
    ran.top
}

// A batch on a fresh store of so many cells, with so many answer words, each 7 before.
pub fn fresh_batch(rt: &HostRuntime, name: &str, capacity: u32, calls: &[u32], space: usize) {
    let mut words = [0u32; 2 * LIMIT];
    let mut answers = [7u32; ANSWERS + 2];
    let ws = &mut words[..2 * (capacity as usize).min(LIMIT)];
    let made = answers::made(store::fresh(ws));
    let space = space.min(ANSWERS + 2);
    batch(rt, name, ws, made.top, calls, &mut answers[..space]);
}

// So many words of calls, all 0, which is CLEAR 0 over and over.
fn zeros(rt: &HostRuntime, capacity: u32, words: usize, space: usize) {
    let calls = [0u32; LIST + 4];
    let _ = print!(rt; "cells {capacity}, list of {words} with {space} ");
    fresh_batch(
        rt,
        "answers",
        capacity,
        &calls[..words.min(LIST + 4)],
        space,
    );
}

// A capacity, words of calls and answer words.
const LISTS: [(u32, usize, usize); 12] = [
    // lists that are none, one call or the longest, too long, or broken; the last in a store that is bad too
    (CAPACITY, 0, 0),
    (CAPACITY, 3, 8),
    (CAPACITY, 4, 2),
    (CAPACITY, LIST, ANSWERS),
    (CAPACITY, LIST + 4, ANSWERS + 2),
    (FIRST - 1, 3, 0),
    // answer spaces with room left, and too small; the last for a list that is bad too
    (CAPACITY, 0, 2),
    (CAPACITY, 8, 3),
    (CAPACITY, 8, 4),
    (CAPACITY, 8, 7),
    (CAPACITY, LIST, ANSWERS - 1),
    (CAPACITY, 3, 0),
];

fn lists(rt: &HostRuntime) {
    for (capacity, words, space) in LISTS {
        zeros(rt, capacity, words, space);
    }
}

// A register word as d, a and b of JOIN, then before an unused word that is not 0.
fn register(rt: &HostRuntime, r: u32) {
    let joins = [4, r, 0, 0, 4, 0, r, 0, 4, 0, 0, r];
    let _ = print!(rt; "register {r} ");
    fresh_batch(rt, "in JOIN", CAPACITY, &joins, 6);
    let _ = print!(rt; "register {r} ");
    fresh_batch(rt, "before unused words", CAPACITY, &[0, r, 1, 1], 2);
}

fn registers(rt: &HostRuntime) {
    for r in [FIRST - 1, FIRST, u32::MAX] {
        register(rt, r);
    }
}

// The largest code, one more, the least, one less, and one that is wrong in two ways; then FIRST of the largest.
fn codes(rt: &HostRuntime) {
    let symbols = [
        [2, 0, CODE_LIMIT, 0],
        [2, 0, CODE_LIMIT + 1, 0],
        [2, 0, LEAST_CODE, 0],
        [2, 0, LEAST_CODE - 1, 0],
        [2, 0, u32::MAX, 1],
    ];
    fresh_batch(rt, "codes", CAPACITY, symbols.as_flattened(), 10);
    let first = [2, 0, CODE_LIMIT, 0, 9, 0, 0, 0];
    fresh_batch(rt, "FIRST of the largest code", CAPACITY, &first, 4);
}

pub fn rows(rt: &HostRuntime) {
    lists(rt);
    registers(rt);
    tables::rows(rt, &tables::OPERANDS);
    codes(rt);
    tables::rows(rt, &tables::TERMS);
}
