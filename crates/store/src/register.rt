// A register of a store.
ghost use Rattle.std.specs.Prelude.{◌≡◌, ◌≤◌, ◌<◌, MatchOption};
ghost use Rattle.meaning.specs.Limits.{first_heap_cell};

// A register, by its cell, which lies below the first heap cell.
#[derive(Clone, Copy)]
pub struct Register {
    cell: usize,
    ghost below: { cell < first_heap_cell },
}

impl Register {
    // The register that is cell n, if it is one.
    pub fn new(n: usize) -> Option<Register>
        ensures { MatchOption result (first_heap_cell ≤ n) (λ r. r.cell ≡ n) }
    {
        if n < meaning::FIRST_HEAP_CELL {
            Some(Register { cell: n })
        } else {
            None
        }
    }

    pub fn cell(self) -> usize
        ensures { result ≡ self.cell }
    {
        self.cell
    }
}
