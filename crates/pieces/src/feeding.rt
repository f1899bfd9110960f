// Bytes fed to a state that goes on: each is judged and read as crate `reader` does it, and counted beside.
ghost use Rattle.std.specs.Prelude.{◌≡◌};
ghost use Rattle.meaning.specs.Pieces.{next, feeds};
ghost use Rattle.reader.specs.Readers.{move_of, CanGo};
ghost use Rattle.pieces.specs.Feeding.{state_is, fed_to, CanCount, Counts, CanFeed, Begins};

use reader::judging::{Fault, Move};
use reader::{BadText, Reader};

// The terms begun in the innermost open expression, and the most that any one has had.
#[derive(Clone, Copy)]
pub struct Level {
    pub own: u32,
    pub most: u32,
}

// The reader and the counts of the innermost open expression. Those of the ones around it stand beside the state, in an
// array.
#[derive(Clone, Copy)]
pub struct State {
    pub place: Reader,
    pub level: Level,
}

impl State {
    // Before the first byte.
    #[tactic(auto, unfolding(meaning::specs::Pieces::no_pieces))]
    pub fn start() -> State
        ensures { Begins result }
    {
        State {
            place: Reader::start(),
            level: Level { own: 0, most: 0 },
        }
    }

    // What a byte leaves.
    fn after(self, m: Move, counts: &mut [u32; meaning::DEPTH_LIMIT]) -> State
        requires goes { CanGo m self.place }
        requires counts { CanCount (move_of m) self }
        ensures { state_is result counts.new ≡ next (move_of m) (state_is self counts.old) }
    {
        State {
            place: self.place.after(m),
            level: count_byte(m, self, counts),
        }
    }
}

// Why a byte is refused, and the state before it.
#[derive(Clone, Copy)]
pub struct Stopped {
    pub fault: Fault,
    pub state: State,
}

impl From<Stopped> for BadText {
    ghost from_gives = { λ s e. e ≡ record { fault = s.fault; offset = s.state.place.offset } };

    fn from(s: Stopped) -> BadText {
        s.state.place.refuse(s.fault)
    }
}

// What a byte does to the counts: a term begins, and where it is a bracket, the count of the level around it waits
// until it closes.
#[tactic(auto, unfolding(meaning::specs::Limits::depth_limit))]
fn count_byte(m: Move, s: State, counts: &mut [u32; meaning::DEPTH_LIMIT]) -> Level
    requires { CanCount (move_of m) s }
    ensures { Counts (move_of m) s counts.old result counts.new }
{
    let depth = s.place.depth;
    let own = s.level.own + 1;
    let most = s.level.most.max(own);
    match m {
        Move::Begins(_) => Level { own, most },
        Move::Opens => {
            counts[depth] = own;
            Level { own: 0, most }
        }
        Move::Closes => Level {
            own: counts[depth - 1],
            ..s.level
        },
        Move::Grows(_) | Move::Parts => s.level,
    }
}

// A piece, up to the byte that is refused. A whole text is read as one piece, so that there is one loop over bytes. The
// compiler puts the judgement of a byte into a loop only where there is no other. A call for each byte nearly doubles
// the time of typing. What a byte leaves is a plain struct: a Result is packed and unpacked at each byte, which takes a
// sixth longer.
pub fn feed_bytes(
    s: State,
    piece: &[u8],
    counts: &mut [u32; meaning::DEPTH_LIMIT],
) -> Result<State, Stopped>
    requires { CanFeed s counts.old }
    ensures { fed_to result counts.new ≡ feeds (state_is s counts.old) piece.now }
{
    let mut state = s;
    for &b in piece {
        match state.place.judge(b) {
            Ok(m) => state = state.after(m, counts),
            Err(fault) => return Err(Stopped { fault, state }),
        }
    }
    Ok(state)
}
