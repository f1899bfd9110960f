// A store as a file, for a controller swap (SCOPE 2.5, 5.9, 5.10): loaded into a slice of words, and saved to a space
// of bytes, both of which the caller lends. A file is judged before a word of the slice is written.
// The numbers that an answer stands for are in specs/Answers.antt.
#![tactic(auto)]

ghost use Rattle.std.specs.Prelude.{◌≡◌};
ghost use Rattle.file.specs.Answers.{Loads, Saves};
ghost use Rattle.file.specs.Written.{Writes};
ghost use Rattle.file.specs.declared.NotSaved.TheVariants as not_saved;

use store::{Rule, Unsound};

mod held;
mod image;
mod judging;
mod writing;

// Why a file is refused: the first of these that holds. Damaged has the first damaged cell and the rule that it breaks.
#[derive(Clone, Copy, PartialEq, Eq)]
pub enum NotLoaded {
    ShortFile,
    BadEdition,
    BadDistance,
    BadCapacity,
    WrongSlice,
    Damaged(usize, Rule),
    NotCollected,
}

// Loads the store of a file into a slice of its length, and gives its `top`. Where the file is refused, the slice is
// left as it was lent. The slice need not hold a store before.
pub fn load(ws: &mut [u32], file: &[u8]) -> Result<usize, NotLoaded>
    ensures { Loads file.now ws.old result ws.new }
{
    let image = judging::judge(file, ws.len())?;
    image.fill(ws);
    Ok(image.top())
}

// What saving gives: the new `top` and the length of the file.
#[derive(Clone, Copy, PartialEq, Eq)]
pub struct Saved {
    pub top: usize,
    pub length: usize,
}

// Why nothing is saved: the store is unsound; or the space is short, with the new `top`.
#[derive(Clone, Copy, PartialEq, Eq)]
pub enum NotSaved {
    Unsound(Unsound),
    ShortSpace(usize),
}

impl From<Unsound> for NotSaved {
    ghost from_gives = { λ why e. e ≡ not_saved.Unsound why };

    fn from(why: Unsound) -> NotSaved {
        NotSaved::Unsound(why)
    }
}

// Collects a store and writes its file at the start of the space. The rest of the space is left as it is.
fn collect_and_write(ws: &mut [u32], top: usize, space: &mut [u8]) -> Result<Saved, NotSaved>
    ensures { Writes ws.old top space.old result ws.new space.new }
{
    let low = collect::collect(ws, top)?.top;
    let length = writing::put_file(space, ws, low).map_err(|_| NotSaved::ShortSpace(low))?;
    Ok(Saved { top: low, length })
}

// Saves any store that is sound, and collects it for that; every other is left as it was lent. The whole space is
// determined, whatever the answer.
pub fn save(ws: &mut [u32], top: usize, space: &mut [u8]) -> Result<Saved, NotSaved>
    ensures { Saves ws.old top space.old result ws.new space.new }
{
    let saved = collect_and_write(ws, top, space);
    let length = saved.map_or(0, |saved| saved.length);
    octets::writing::zero_from(space, length);
    saved
}
