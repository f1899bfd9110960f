// A text counted as it arrives in pieces (SCOPE 5.11): how many terms it has, which are the cells that it needs, and
// the most of one level. The state goes from piece to piece as a struct by value, in numbers alone, so that it can
// cross to C; a struct that no start made is taken too. Each byte is judged and read by crate `reader`. A whole text is
// read here too, for crate `typing`.
#![tactic(auto)]

ghost use Rattle.std.specs.Prelude.{◌≡◌};
ghost use Rattle.meaning.specs.Reader.{advances, at_start};
ghost use Rattle.reader.specs.Readers.{Finds};
ghost use Rattle.pieces.specs.States.{struct_of, Starts, Feeds, Ends, IsWhole};
ghost use Rattle.pieces.specs.Feeding.{fed_to};

use crate::feeding::{State, Stopped, feed_bytes};
use crate::numbers::numbers_of;
use reader::BadText;

mod feeding;
mod fitting;
mod numbers;

// The state between pieces: where the reader stands, the number so far where it stands in one, the offset of the next
// byte or of the one that is refused, the brackets that are open, the terms begun on all levels, those of the
// innermost open expression, and the most that any one has had. counts[i], for each i below depth, has the terms of the
// expression that i brackets are around, with the bracket that is open in it.
#[repr(C)]
#[derive(Clone, Copy)]
pub struct Pieces {
    pub stand: u32,
    pub code: u32,
    pub offset: usize,
    pub depth: usize,
    pub terms: usize,
    pub own: u32,
    pub most: u32,
    pub counts: [u32; meaning::DEPTH_LIMIT],
}

// What bytes lead to, in numbers.
fn pieces_of(reached: Result<State, Stopped>, counts: [u32; meaning::DEPTH_LIMIT]) -> Pieces
    ensures { result ≡ struct_of (fed_to reached counts) }
{
    let (stand, s) = match reached {
        Ok(s) => (Ok(s.place.stand), s),
        Err(e) => (Err(e.fault), e.state),
    };
    let (number, code) = numbers_of(stand);
    Pieces {
        stand: number,
        code,
        offset: s.place.offset,
        depth: s.place.depth,
        terms: s.place.total,
        own: s.level.own,
        most: s.level.most,
        counts,
    }
}

// Before the first piece.
#[tactic(auto, unfolding(meaning::specs::Limits::depth_limit))]
pub fn start() -> Pieces
    ensures { Starts result }
{
    pieces_of(Ok(State::start()), [0; meaning::DEPTH_LIMIT])
}

// A piece. A state that does not go on, a refused one among them, comes back as it came.
pub fn feed(s: Pieces, piece: &[u8]) -> Pieces
    ensures { Feeds s piece.now result }
{
    let Ok(from) = State::try_from(&s) else {
        return s;
    };
    let mut counts = s.counts;
    let reached = feed_bytes(from, piece, &mut counts);
    pieces_of(reached, counts)
}

// What the end gives: a status and the value that goes with it, the terms on all levels and the most of one level.
#[repr(C)]
#[derive(Clone, Copy)]
pub struct Counted {
    pub status: u32,
    pub value: usize,
    pub terms: usize,
    pub most: usize,
}

// The terms of a text that ends here, if it may: in a state that goes on.
fn terms(s: &Pieces) -> Result<usize, BadText>
    ensures { IsWhole s.now result }
{
    State::try_from(s)?.place.finish()
}

// The end of the text.
#[tactic(auto, unfolding(meaning::specs::Pieces::counted))]
pub fn end(s: Pieces) -> Counted
    ensures { Ends s result }
{
    match terms(&s) {
        Ok(terms) => Counted {
            status: 0,
            value: 0,
            terms,
            most: s.most as usize,
        },
        Err(bad) => Counted {
            status: bad.fault.into(),
            value: bad.offset,
            terms: 0,
            most: 0,
        },
    }
}

// A whole text read, for crate `typing`: the number of its terms, or its refusal.
pub fn read(text: &[u8]) -> Result<usize, BadText>
    ensures { Finds (advances at_start text.now) result }
{
    let mut counts = [0; meaning::DEPTH_LIMIT];
    feed_bytes(State::start(), text, &mut counts)?
        .place
        .finish()
}
