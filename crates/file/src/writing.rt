// The file of a collected store, written from left to right.
ghost use Rattle.std.specs.Prelude.{◌≡◌};
ghost use Rattle.octets.specs.Space.{blank, write};
ghost use Rattle.octets.specs.Places.{space};
ghost use Rattle.meaning.specs.Limits.{first_heap_cell, edition};
ghost use Rattle.meaning.specs.Sound.{Sound};
ghost use Rattle.meaning.specs.File.{file_of};

use super::judging::TRAILER;
use octets::writing;
use octets::writing::Full;

// The heap, the registers, the trailer. Gives the length of the file.
#[tactic(auto, using(meaning::proofs::sound::Cells::limit_fits))]
pub fn put_file(out: &mut [u8], ws: &[u32], top: usize) -> Result<usize, Full>
    requires { Sound first_heap_cell ws.now top }
    ensures { space out.new result
        ≡ write (file_of edition first_heap_cell ws.now top) (blank out.old) }
{
    let low = 2 * meaning::FIRST_HEAP_CELL;
    let trailer = [
        (8 * top + TRAILER) as u32,
        (top - meaning::FIRST_HEAP_CELL) as u32,
        (ws.len() / 2) as u32,
        meaning::EDITION,
    ];
    let place = writing::put_words(out, 0, &ws[low..2 * top])?;
    let place = writing::put_words(out, place, &ws[..low])?;
    writing::put_words(out, place, &trailer)
}
