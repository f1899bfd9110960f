// A file judged, before anything is written: its trailer, then the store in it.
ghost use Rattle.file.specs.Judged.{FirstOf, Reads, Frames, CellsChecked, Judges};

use super::image::Image;
use super::{NotLoaded, held};

// The bytes of a trailer.
pub const TRAILER: usize = 16;

// The first heap cell of the stores of an edition, where there is such an edition.
fn first_of(edition: u32) -> Option<usize>
    ensures { FirstOf edition result }
{
    let first = *meaning::KINDS.get(edition as usize)?;
    (first != 0).then_some(first)
}

// The words of a trailer; the edition as the first heap cell of its stores.
#[derive(Clone, Copy)]
pub struct Trailer {
    pub distance: usize,
    pub cells: usize,
    pub capacity: usize,
    pub first: usize,
}

impl Trailer {
    // The trailer of a file, unless the file is too short for one or of an edition without stores.
    fn read(file: &[u8]) -> Result<Trailer, NotLoaded>
        ensures { Reads file.now result }
    {
        if file.len() < TRAILER {
            return Err(NotLoaded::ShortFile);
        }
        let tail = &file[file.len() - TRAILER..];
        let edition = octets::reading::word(tail, 3);
        let first = first_of(edition).ok_or(NotLoaded::BadEdition)?;
        Ok(Trailer {
            distance: octets::reading::word(tail, 0) as usize,
            cells: octets::reading::word(tail, 1) as usize,
            capacity: octets::reading::word(tail, 2) as usize,
            first,
        })
    }
}

// The store in a file whose trailer is right, for a slice of `len` words.
fn image_of(file: &[u8], len: usize) -> Result<Image<'_>, NotLoaded>
    ensures { Frames file.now len result }
{
    let t = Trailer::read(file)?;
    if t.distance != 8 * (t.cells + t.first) + TRAILER || file.len() < t.distance {
        return Err(NotLoaded::BadDistance);
    }
    if t.capacity < t.first + t.cells || meaning::LIMIT < t.capacity {
        return Err(NotLoaded::BadCapacity);
    }
    if len != 2 * t.capacity {
        return Err(NotLoaded::WrongSlice);
    }
    Ok(Image {
        body: &file[file.len() - t.distance..],
        first: t.first,
        cells: t.cells,
    })
}

// Names the first damaged cell of the store, with the rule that it breaks. The rules are those of a lent store, and the
// quick question goes first, as cells are mostly right.
fn check_cells(image: &Image) -> Result<(), NotLoaded>
    ensures { CellsChecked image.now result }
{
    let top = image.top();
    for c in 0..top {
        let (a, b) = image.cell(c);
        if !store::cells::cell_ok(a, b, c, image.first, top) {
            if let Some(rule) = store::cells::broken_rule(a, b, c, image.first, top) {
                return Err(NotLoaded::Damaged(c, rule));
            }
        }
    }
    Ok(())
}

// The store in a file that is taken, for a slice of `len` words. It sees the file alone, so a refusal cannot touch the
// slice.
pub fn judge(file: &[u8], len: usize) -> Result<Image<'_>, NotLoaded>
    ensures { Judges file.now len result }
{
    let image = image_of(file, len)?;
    check_cells(&image)?;
    if !held::all_held(&image) {
        return Err(NotLoaded::NotCollected);
    }
    Ok(image)
}
