// The workspace's rule over plain numbers: how a cell reads, how two costs add, the least over a task's modes, and a run of cells of one
// row. No byte of a table is known.
#![tactic(auto)]

ghost use Rattle.std.specs.Prelude.{◌≡◌, ◌+◌, ◌≤◌, ◌<◌, length, map};
ghost use Rattle.model.specs.Turns.{each_from};
ghost use Rattle.model.specs.Cells.{reads as reads_as, least as least_as};
ghost use Rattle.cells.specs.inner.Rows.{widest, held, row_reads};
ghost use Rattle.cells.specs.inner.Held.{counts};

mod mode;
mod next_row;

pub use mode::Mode;
use next_row::NextRow;

// The mark, 2^64 - 1: the document's number for a cell that no cost fills, which a lent cell may hold.
pub const MARK: u64 = u64::MAX;

// The cost ceiling: a plan costs at most this.
const CEILING: u64 = 3303014400000000000;

// What a number above the ceiling counts as in a sum: a number, so that sums need no case.
const BEYOND: u64 = CEILING + 1;

// A number above the cost ceiling reads as the mark.
pub fn reads(x: u64) -> u64
    ensures { result ≡ reads_as x }
{
    if x <= CEILING { x } else { MARK }
}

// A number as it counts in a sum.
fn count_of(x: u64) -> u64
    ensures { result ≡ counts x }
{
    x.min(BEYOND)
}

// The least over the modes; whether it is past the ceiling is tested once, after them.
fn least(modes: &[Mode], next: &NextRow, column: usize) -> u64
    requires { column < widest }
    ensures { result ≡ least_as (map held modes.now) (row_reads next.now.counts) column }
{
    let mut best = BEYOND;
    for mode in modes {
        if let Some(offer) = mode.offer(next, column) {
            best = best.min(offer);
        }
    }
    reads(best)
}

// Fills a run of cells of a task's row, the first of which stands at `column`, over the next row, whose cells are held once for the whole
// run.
pub fn fill_run(modes: &[Mode], next: &[u64], cells: &mut [u64], column: usize)
    requires { (column + length cells.old ≤ length next.now) × (length next.now ≤ widest) }
    ensures { cells.new ≡ each_from (least_as (map held modes.now) (row_reads next.now)) column (length cells.old) }
{
    let held = NextRow::new(next);
    for (i, cell) in cells.iter_mut().enumerate() {
        *cell = least(modes, &held, column + i);
    }
}
