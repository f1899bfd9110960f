// One byte of a text read (SCOPE 5.8): where the reader stands decides what a byte does, and a byte that cannot go on
// is refused. The reader is a struct by value. Nothing is laid here: at its end the reader tells how many terms a text
// has, or why it is none. The loop over bytes is in crate `pieces`.
#![tactic(auto)]

ghost use Rattle.std.specs.Prelude.{◌≡◌};
ghost use Rattle.meaning.specs.Reader.{moved, at_start};
ghost use Rattle.reader.specs.Readers.{move_of, reader_of, CanGo, Judged, Finds};

use crate::judging::{Fault, Move, Stand, judge};

pub mod codes;
pub mod judging;

// Where the reader stands, the offset of the next byte, the brackets that are open, and the terms begun on all levels.
#[derive(Clone, Copy)]
pub struct Reader {
    pub stand: Stand,
    pub offset: usize,
    pub depth: usize,
    pub total: usize,
}

// Why a text is refused, and the offset of the byte that cannot continue it, or of its end.
#[derive(Clone, Copy, PartialEq, Eq)]
pub struct BadText {
    pub fault: Fault,
    pub offset: usize,
}

impl Reader {
    // Before the first byte.
    #[tactic(auto, unfolding(meaning::specs::Reader::at_start))]
    pub fn start() -> Reader
        ensures { reader_of result ≡ at_start }
    {
        Reader {
            stand: Stand::Begun,
            offset: 0,
            depth: 0,
            total: 0,
        }
    }

    // What the byte b does.
    pub fn judge(self, b: u8) -> Result<Move, Fault>
        ensures { Judged self b result }
    {
        judge(
            self.stand,
            self.depth,
            meaning::TERMS_LIMIT <= self.total,
            b,
        )
    }

    // What it leaves.
    pub fn after(self, m: Move) -> Reader
        requires { CanGo m self }
        ensures { reader_of result ≡ moved (move_of m) (reader_of self) }
    {
        let r = Reader {
            offset: self.offset + 1,
            ..self
        };
        match m {
            Move::Begins(code) => Reader {
                stand: Stand::Number(code),
                total: r.total + 1,
                ..r
            },
            Move::Grows(code) => Reader {
                stand: Stand::Number(code),
                ..r
            },
            Move::Opens => Reader {
                stand: Stand::Begun,
                depth: r.depth + 1,
                total: r.total + 1,
                ..r
            },
            Move::Closes => Reader {
                stand: Stand::Closed,
                depth: r.depth - 1,
                ..r
            },
            Move::Parts => Reader {
                stand: Stand::Spaced,
                ..r
            },
        }
    }

    // A text that is refused here.
    pub fn refuse(self, fault: Fault) -> BadText
        ensures { result ≡ record { fault = fault; offset = self.offset } }
    {
        BadText {
            fault,
            offset: self.offset,
        }
    }

    // The end of the text: the number of its terms, unless a term must come or a bracket is open.
    #[tactic(auto, unfolding(meaning::specs::Reader::is_whole, meaning::specs::Reader::stop_verdict))]
    pub fn finish(self) -> Result<usize, BadText>
        ensures { Finds (reader_of self) result }
    {
        if matches!(self.stand, Stand::Spaced) || self.depth != 0 {
            Err(self.refuse(Fault::NotText))
        } else {
            Ok(self.total)
        }
    }
}
