// A mode as a task's row is filled and traced by it.
ghost use Rattle.std.specs.Prelude.{◌≤◌};
ghost use Rattle.model.specs.inner.Costs.{dearest};

use crate::next_row::NextRow;
use crate::{count_of, reads};

// A mode that may be chosen wherever its cores allow it. One that may not be chosen has a need above every column.
#[derive(Clone, Copy, PartialEq, Eq)]
pub struct Mode {
    pub need: u64,
    pub cost: u64,

    // A cost and a cell as it counts in sums then add up within 64 bits.
    pub ghost bounded: { cost ≤ dearest },
}

impl Mode {
    ghost use Rattle.std.specs.Prelude.{◌≡◌, ◌<◌, length};
    ghost use Rattle.model.specs.Cells.{onward as onward_as};
    ghost use Rattle.model.specs.Taking.{keeps as keeps_as};
    ghost use Rattle.cells.specs.inner.Rows.{widest, held, row_reads};
    ghost use Rattle.cells.specs.inner.Held.{offer_of};

    // Its cost plus the cell in the next row, at the column less its cores.
    pub fn onward(self, next: &[u64], column: usize) -> u64
        requires { (self.need ≤ column) × (column < length next.now) }
        ensures { result ≡ onward_as (held self) (row_reads next.now) column }
    {
        let cell = next[column - self.need as usize];
        reads(self.cost + count_of(cell))
    }

    // The same sum as it counts in sums; none where the mode needs more cores than the column's number.
    pub(crate) fn offer(self, next: &NextRow, column: usize) -> Option<u64>
        requires { column < widest }
        ensures { result ≡ offer_of next.now.counts column self }
    {
        if column < self.need as usize {
            return None;
        }
        Some(self.cost + next.count(column - self.need as usize))
    }

    // Whether it keeps the cost of a cell in this column, over the next row.
    pub fn keeps(self, next: &[u64], column: usize, cell: u64) -> bool
        requires { column < length next.now }
        ensures { result ≡ keeps_as (row_reads next.now) column cell (held self) }
    {
        self.need as usize <= column && self.onward(next, column) == cell
    }
}

// What a place holds before a mode is put there: one that may not be chosen. By hand, since no derive fills a ghost field.
impl Default for Mode {
    ghost use Rattle.std.specs.Prelude.{◌≡◌};
    ghost use Rattle.model.specs.Cells.{mark};

    ghost is_default = { λ o. (o.need ≡ mark) × (o.cost ≡ 0) };

    fn default() -> Self {
        Mode {
            need: u64::MAX,
            cost: 0,
        }
    }
}
