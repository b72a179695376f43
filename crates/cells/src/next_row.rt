// The next row, as it is held while a row is filled.
ghost use Rattle.std.specs.Prelude.{◌+◌, ◌≤◌, ℕ, slice_index};
ghost use Rattle.model.specs.Cells.{ceiling};

use crate::count_of;
use model::WIDEST;

// The first cells of the next row, as they count in sums.
#[derive(Drop)]
pub(crate) struct NextRow {
    pub(crate) counts: [u64; WIDEST],

    // Each of them is small enough for a sum with a cost.
    pub(crate) ghost small: { (c : ℕ) → slice_index counts c ≤ ceiling + 1 },
}

impl NextRow {
    ghost use Rattle.std.specs.Prelude.{◌≡◌, ◌<◌, length};
    ghost use Rattle.cells.specs.inner.Rows.{widest, row_reads};
    ghost use Rattle.cells.specs.inner.Held.{counts};

    pub(crate) fn new(next: &[u64]) -> NextRow
        requires { length next.now ≤ widest }
        ensures { (c : ℕ) → c < length next.now → row_reads result.counts c ≡ row_reads next.now c }
    {
        let mut counts = [0u64; WIDEST];
        for (c, cell) in next.iter().enumerate() {
            counts[c] = count_of(*cell);
        }
        NextRow { counts }
    }

    pub(crate) fn count(&self, c: usize) -> u64
        requires { c < widest }
        ensures { result ≡ slice_index self.now.counts c }
    {
        self.counts[c]
    }
}
