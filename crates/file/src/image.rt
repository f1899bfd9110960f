// The store in a file, word by word. In a file the registers come after the heap.
ghost use Rattle.std.specs.Prelude.{◌≡◌, ◌*◌, ◌≤◌, ◌<◌, length};
ghost use Rattle.words.specs.Cell.{first_word, second_word};
ghost use Rattle.octets.specs.Space.{filled};
ghost use Rattle.file.specs.Body.{Whole};

// A store by the bytes of its file from the first heap cell on, that cell, and the number of its heap cells.
#[derive(Clone, Copy)]
pub struct Image<'a> {
    pub body: &'a [u8],
    pub first: usize,
    pub cells: usize,
    ghost whole: { Whole first cells body.now },
}

impl Image<'_> {
    ghost use Rattle.file.specs.Images.{words_in, top_in};

    // How many cells are occupied.
    pub fn top(&self) -> usize
        ensures { result ≡ top_in self.now }
    {
        self.first + self.cells
    }

    // The words of cell c.
    pub fn cell(&self, c: usize) -> (u32, u32)
        requires { c < top_in self.now }
        ensures first { result.0 ≡ first_word (words_in self.now) c }
        ensures second { result.1 ≡ second_word (words_in self.now) c }
    {
        let place = if c < self.first {
            self.cells + c
        } else {
            c - self.first
        };
        (
            octets::reading::word(self.body, 2 * place),
            octets::reading::word(self.body, 2 * place + 1),
        )
    }

    // Writes the store into a slice that has room for it, and zeros after it.
    pub fn fill(&self, ws: &mut [u32])
        requires { 2 * top_in self.now ≤ length ws.old }
        ensures { ws.new ≡ filled (length ws.old) (words_in self.now) }
    {
        let (heap, registers) = self.body.split_at(8 * self.cells);
        let (low, high) = ws.split_at_mut(2 * self.first);
        octets::reading::fill_words(low, registers);
        octets::reading::fill_words(high, heap);
    }
}
