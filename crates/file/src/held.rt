// Whether the store in a file is collected. It is exactly where each heap cell lies between the ends of some register
// or heap bracket, since references in the heap point down.
//
// The heap is gone through by windows. For each place of a window one pass over all cells notes how far the runs reach
// that begin there; place 0 also stands for all that begin before the window. A cell is held where one of the runs that
// begin at or before it reaches beyond it, so one look along the window is enough.
ghost use Rattle.std.specs.Prelude.{◌≡◌, ◌-◌, ◌≤◌, ◌<◌, min, ltb, take};
ghost use Rattle.words.specs.Second.{bracket_to};
ghost use Rattle.meaning.specs.Sound.{cell_of};
ghost use Rattle.file.specs.Images.{top_in, cell_in};
ghost use Rattle.file.specs.Windows.{held_from, noted, along};

use super::image::Image;

// The most cells of a window, as many as a store may have. It is a matter of time alone: a store with more cells would
// take more passes.
const WINDOW: usize = 4096;

// The cells from `start` on: for each of them, the cell after the farthest run that belongs to its place, or 0.
#[derive(Clone, Copy)]
struct Window {
    start: usize,
    far: [u32; WINDOW],
}

impl Window {
    // Notes the run of a cell with the words a and b, where it has one that belongs to the window.
    fn note(&mut self, a: u32, b: u32)
        ensures start { self.new.start ≡ self.old.start }
        ensures far { self.new.far
            ≡ noted self.old.start (cell_of (ltb b (bracket_to 0)) a b) self.old.far }
    {
        let place = (a as usize).saturating_sub(self.start);
        if words::EMPTY < b && place < WINDOW {
            self.far[place] = self.far[place].max(b - words::EMPTY + 1);
        }
    }

    // One look along it: whether each of its cells below `top` is held.
    fn all_held(&self, top: usize) -> bool
        requires { self.now.start ≤ top }
        ensures { let start = self.now.start in
            result ≡ along start 0 (take (min WINDOW (top - start)) self.now.far) }
    {
        let n = WINDOW.min(top - self.start);
        let far = &self.far[..n];
        let mut reach = 0;
        for (j, x) in far.iter().enumerate() {
            reach = reach.max(*x);
            if reach as usize <= self.start + j {
                return false;
            }
        }
        true
    }
}

// Whether each cell of the window from cell `start` on is held.
fn window_held(image: &Image, start: usize) -> bool
    requires { start < top_in image.now }
    ensures { let top = top_in image.now in
        result ≡ held_from (cell_in image.now) top start (min WINDOW (top - start)) }
{
    let top = image.top();
    let mut window = Window {
        start,
        far: [0; WINDOW],
    };
    for c in 0..top {
        let (a, b) = image.cell(c);
        window.note(a, b);
    }
    window.all_held(top)
}

// Whether each heap cell of the store is held.
pub fn all_held(image: &Image) -> bool
    ensures { let i = image.now in result ≡ held_from (cell_in i) (top_in i) i.first i.cells }
{
    let top = image.top();
    for start in (image.first..top).step_by(WINDOW) {
        if !window_held(image, start) {
            return false;
        }
    }
    true
}
