// The store for C and Rust. A slice crosses as a pointer and a count of words or bytes. No enum and no slice can come
// back: a reply is a struct of SCOPE's numbers (5), so is what printing, typing and saving give, and a look is a place.
// A text that comes in pieces is a struct too, which goes in and comes back by value.
// Each exported function is one call of a proved one, and takes whatever it is handed.
#![tactic(auto)]

ghost use Rattle.std.specs.Prelude.{◌≡◌, ◌≤◌};
ghost use Rattle.meaning.specs.Limits.{limit};
ghost use Rattle.capi.specs.Answers.{numbers_are, reply, Checks, Makes, Collects, Runs, Places, Prints, Types};
ghost use Rattle.capi.specs.Answers.{Saves, Loads};
ghost use Rattle.pieces.specs.States.{Starts, Feeds, Ends};

use crate::numbers::{DONE, Numbers};
use file::NotSaved;
use pieces::{Counted, Pieces};
use store::Span;
use typing::NotTyped;

mod numbers;

// A status, the rule of a damaged cell or 0, the value that goes with the status, and `top` afterwards.
#[repr(C)]
#[derive(Clone, Copy)]
pub struct Reply {
    pub status: u32,
    pub rule: u32,
    pub value: u32,
    pub top: usize,
}

impl Reply {
    // A value is a cell or a number of cells, so it fits a word.
    #[tactic(auto, using(meaning::proofs::sound::Cells::limit_fits))]
    fn new(n: Numbers, top: usize) -> Reply
        requires { n.value ≤ limit }
        ensures { result ≡ reply (numbers_are n) top }
    {
        Reply {
            status: n.status,
            rule: n.rule,
            value: n.value as u32,
            top,
        }
    }
}

// The check alone. `top` comes back as it came.
#[unsafe(no_mangle)]
pub extern "C" fn zelmotar_check(words: &[u32], top: usize) -> Reply
    ensures { Checks words.now top result }
{
    match store::check(words, top) {
        Ok(()) => Reply::new(DONE, top),
        Err(unsound) => Reply::new(unsound.into(), top),
    }
}

// A fresh store, with its `top`; 0 as `top` where the words are left as they are.
#[unsafe(no_mangle)]
pub extern "C" fn zelmotar_fresh(words: &mut [u32]) -> Reply
    ensures { Makes words.old result words.new }
{
    match store::fresh(words) {
        Ok(new) => Reply::new(DONE, new),
        Err(bad_length) => Reply::new(bad_length.into(), 0),
    }
}

// Collecting alone. The value is live.
#[unsafe(no_mangle)]
pub extern "C" fn zelmotar_collect(words: &mut [u32], top: usize) -> Reply
    ensures { Collects words.old top result words.new }
{
    match collect::collect(words, top) {
        Ok(done) => Reply::new(Numbers::new(0, done.live), done.top),
        Err(why) => Reply::new(why.into(), top),
    }
}

// A batch of calls. The answers of the calls are in the space lent for them.
#[unsafe(no_mangle)]
pub extern "C" fn zelmotar_run(
    words: &mut [u32],
    top: usize,
    calls: &[u32],
    answers: &mut [u32],
) -> Reply
    ensures { Runs words.old top calls.now answers.old result words.new
        answers.new }
{
    match calls::run(words, top, calls, answers) {
        Ok(end) => Reply::new(DONE, end),
        Err(not_run) => Reply::new(not_run.into(), top),
    }
}

// What printing gives: status, rule and value as above, and the length of the text.
#[repr(C)]
#[derive(Clone, Copy)]
pub struct Text {
    pub status: u32,
    pub rule: u32,
    pub value: usize,
    pub length: usize,
}

// A register printed. Every byte of the space lent for it is written.
#[unsafe(no_mangle)]
pub extern "C" fn zelmotar_print(words: &[u32], top: usize, reg: usize, space: &mut [u8]) -> Text
    ensures { Prints words.now top reg space.old result space.new }
{
    let (n, length) = match text::print(words, top, reg, space) {
        Ok(length) => (DONE, length),
        Err(no_text) => (no_text.into(), 0),
    };
    Text {
        status: n.status,
        rule: n.rule,
        value: n.value,
        length,
    }
}

// What typing gives: status, rule and value as above, where the value may be an offset into the text, and `top`
// afterwards.
#[repr(C)]
#[derive(Clone, Copy)]
pub struct Entry {
    pub status: u32,
    pub rule: u32,
    pub value: usize,
    pub top: usize,
}

// A text typed into a register. The text is only read.
#[unsafe(no_mangle)]
pub extern "C" fn zelmotar_type(words: &mut [u32], top: usize, reg: usize, text: &[u8]) -> Entry
    ensures { Types words.old top reg text.now result words.new }
{
    let (n, end) = match typing::type_in(words, top, reg, text) {
        Ok(end) => (DONE, end),
        Err(why @ NotTyped::NoRoom(low)) => (why.into(), low),
        Err(why) => (why.into(), top),
    };
    Entry {
        status: n.status,
        rule: n.rule,
        value: n.value,
        top: end,
    }
}

// A text that comes in pieces: before the first one.
#[unsafe(no_mangle)]
pub extern "C" fn zelmotar_text_start() -> Pieces
    ensures { Starts result }
{
    pieces::start()
}

// A piece of it. The piece is only read.
#[unsafe(no_mangle)]
pub extern "C" fn zelmotar_text_feed(state: Pieces, piece: &[u8]) -> Pieces
    ensures { Feeds state piece.now result }
{
    pieces::feed(state, piece)
}

// Its end.
#[unsafe(no_mangle)]
pub extern "C" fn zelmotar_text_end(state: Pieces) -> Counted
    ensures { Ends state result }
{
    pieces::end(state)
}

// A look at a register: the place of its cells, by which the caller takes the part.
#[unsafe(no_mangle)]
pub extern "C" fn zelmotar_look(words: &[u32], top: usize, reg: usize) -> Span
    ensures { Places words.now top reg result }
{
    store::look_span(words, top, reg)
}

// What saving gives: status, rule and value as above, `top` afterwards and the length of the file.
#[repr(C)]
#[derive(Clone, Copy)]
pub struct Filed {
    pub status: u32,
    pub rule: u32,
    pub value: u32,
    pub top: usize,
    pub length: usize,
}

// A store saved. It is collected, and every byte of the space lent for the file is written.
#[unsafe(no_mangle)]
pub extern "C" fn zelmotar_save(words: &mut [u32], top: usize, space: &mut [u8]) -> Filed
    ensures { Saves words.old top space.old result words.new space.new }
{
    let (r, length) = match file::save(words, top, space) {
        Ok(saved) => (Reply::new(DONE, saved.top), saved.length),
        Err(why @ NotSaved::ShortSpace(low)) => (Reply::new(why.into(), low), 0),
        Err(why) => (Reply::new(why.into(), top), 0),
    };
    Filed {
        status: r.status,
        rule: r.rule,
        value: r.value,
        top: r.top,
        length,
    }
}

// A file loaded; 0 as `top` where the words are left as they are. The file is only read.
#[unsafe(no_mangle)]
pub extern "C" fn zelmotar_load(words: &mut [u32], file: &[u8]) -> Reply
    ensures { Loads file.now words.old result words.new }
{
    match file::load(words, file) {
        Ok(top) => Reply::new(DONE, top),
        Err(not_loaded) => Reply::new(not_loaded.into(), 0),
    }
}
