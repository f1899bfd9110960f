// Room for new cells (SCOPE 4.4), for whoever sets register d to them. It is sought in the store with d empty or, where
// d is kept, in the store as it is: that one is collected where `top` and the need exceed the capacity, and only then.
// The need may be any number, so what is free is compared with it and no sum is taken.
ghost use Rattle.std.specs.Prelude.{◌≡◌, true, false, cond, ◌+◌, ◌*◌, ◌<◌, eqb, length};
ghost use Rattle.words.specs.Cell.{second_word};
ghost use Rattle.words.specs.Second.{bracket_to};
ghost use Rattle.meaning.specs.Limits.{first_heap_cell};
ghost use Rattle.meaning.specs.Sound.{Sound};
ghost use Rattle.meaning.specs.Call.{sought};
ghost use Rattle.build.specs.Room.{Sought, RoomMade};

use crate::cells::put_empty;
use store::register::Register;

// No room for the new cells, even in the collected store, whose `top` this has.
#[derive(Clone, Copy, PartialEq, Eq)]
pub struct NoRoom {
    pub top: usize,
}

// Whether room is sought in the store as it is: d is kept, or it is empty already.
fn stays(ws: &[u32], d: usize, kept: bool) -> bool
    requires { 2 * d + 1 < length ws.now }
    ensures { result ≡ cond kept true (eqb (second_word ws.now d) (bracket_to 0)) }
{
    kept || words::second_word(ws, d) == words::EMPTY
}

// `top` of the store in which n new cells are to be laid: of the store as it is where they fit above `top`, else of the
// collected store.
fn seek_room(ws: &mut [u32], top: usize, n: usize) -> usize
    requires { Sound first_heap_cell ws.old top }
    ensures { Sought n ws.old top ws.new result }
{
    let cells = ws.len() / 2;
    if n <= cells - top {
        return top;
    }
    collect::collect_sound(ws, top)
}

// Room sought in the store as it is. A collection that gives no room is the one that 16 leaves, so none is tried first.
fn room_beside(ws: &mut [u32], top: usize, n: usize) -> Result<usize, NoRoom>
    requires { Sound first_heap_cell ws.old top }
    ensures { RoomMade n ws.old ws.old top result ws.new }
{
    let cells = ws.len() / 2;
    let low = seek_room(ws, top, n);
    if n <= cells - low {
        return Ok(low);
    }
    Err(NoRoom { top: low })
}

// Room sought without d's old expression. Where there is none, d has its words again before the store is collected.
fn room_without(ws: &mut [u32], top: usize, n: usize, d: usize) -> Result<usize, NoRoom>
    requires { Sound first_heap_cell ws.old top × (d < first_heap_cell) }
    ensures { RoomMade n (sought false d ws.old) ws.old top result ws.new }
{
    let free = ws.len() / 2 - top;
    let first = words::first_word(ws, d);
    let second = words::second_word(ws, d);
    put_empty(ws, d);
    if n <= free {
        return Ok(top);
    }
    let low = collect::collect_for(ws, top, n - free);
    if n - free <= top - low {
        return Ok(low);
    }
    words::put_cell(ws, d, first, second);
    // Where no cell is dead even without d, the store is collected as it is.
    if low == top {
        return Err(NoRoom { top });
    }
    Err(NoRoom {
        top: collect::collect_sound(ws, top),
    })
}

// Room for n new cells, for a call that sets register d: the `top` from which they are laid. `kept` says whether the
// call reads d too.
pub fn make_room(
    ws: &mut [u32],
    top: usize,
    n: usize,
    d: Register,
    kept: bool,
) -> Result<usize, NoRoom>
    requires { Sound first_heap_cell ws.old top }
    ensures { RoomMade n (sought kept d.cell ws.old) ws.old top result ws.new }
{
    let cell = d.cell();
    if stays(ws, cell, kept) {
        return room_beside(ws, top, n);
    }
    room_without(ws, top, n, cell)
}
