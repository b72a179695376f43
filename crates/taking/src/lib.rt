// Takes the plan from a lent workspace.
#![tactic(auto)]

ghost use Rattle.std.specs.Prelude.{◌≡◌, ◌≤◌, ◌<◌, length};
ghost use Rattle.answer.specs.Said.{said_of};
ghost use Rattle.answer.specs.Order.{first};
ghost use Rattle.model.specs.Workspace.{cell_count};
ghost use Rattle.model.specs.Taking.{used as used_in};
ghost use Rattle.cells.specs.inner.Rows.{row_reads};
ghost use Rattle.table.specs.Said.{the_header};
ghost use Rattle.table.specs.Order.{header_block, header_said};
ghost use Rattle.taking.specs.Take.{lent_rows, with_modes, TookPlan};
ghost use Rattle.taking.specs.inner.Traces.{TracedFrom};
ghost use Rattle.taking.specs.inner.From.{TookFrom};

use answer::{Reason, Refusal};
use arrayvec::ArrayVec;
use block::Header;
use cells::reads;
use choices::load_modes;
use model::MOST_TASKS;
use table::{Checked, check, task_block};

// A plan that was taken: the cores used, and the cost.
#[derive(Clone, Copy, PartialEq, Eq)]
pub struct Plan {
    pub cores: u32,
    pub cost: u64,
}

// The smallest column of a row whose cost equals that of column m: the labelled block yields it, as the document has it, or m is it.
fn smallest(row: &[u64], m: usize) -> usize
    requires { m < length row.now }
    ensures { result ≡ used_in (row_reads row.now) m }
{
    let last = reads(row[m]);
    'columns: {
        for (column, cell) in row[..m].iter().enumerate() {
            if reads(*cell) == last {
                break 'columns column;
            }
        }
        m
    }
}

// From column `used` of row 0, each task in turn gets the lowest permitted mode that keeps the cell's cost: the first one found, which
// continues with the next task. None are found where a task has no such mode. A task's modes are loaded once.
fn trace(checked: Checked, cells: &[u64], used: usize) -> Option<ArrayVec<u8, MOST_TASKS>>
    requires { (used ≤ checked.header.cores) × (cell_count checked.header.tasks checked.header.cores ≤ length cells.now) }
    ensures { TracedFrom checked.entry.table.now cells.now used result }
{
    let n = checked.header.tasks as usize;
    let width = checked.header.cores as usize + 1;
    let mut found = ArrayVec::new();
    let mut modes = ArrayVec::new();
    let mut column = used;
    // row 0 is stored after all others, so the next row is always the last that is left; cells past row 0 are not read
    let (rows, mut row) = cells.split_at(n * width);
    'tasks: for (i, next) in rows.rchunks_exact(width).enumerate() {
        let cell = reads(row[column]);
        load_modes(
            task_block(checked.table, i as u32),
            checked.header.common,
            &mut modes,
        );
        for (j, mode) in modes.as_slice().iter().enumerate() {
            if mode.keeps(next, column, cell) {
                found.push(j as u8);
                column -= mode.need as usize;
                row = next;
                continue 'tasks;
            }
        }
        return None;
    }
    Some(found)
}

// Puts one byte for each task at the front of the output; the rest stays.
fn put(modes: &[u8], out: &mut [u8])
    requires { length modes.now ≤ length out.old }
    ensures { out.new ≡ with_modes modes.now out.old }
{
    out[..modes.len()].copy_from_slice(modes);
}

// Takes the plan from a workspace and into an output that are long enough for the table: cores used and cost, and one byte per task into
// the output. Nothing is written before the last test. Its refusals name block 0, as do those of `take`.
pub fn take_from(checked: Checked, cells: &[u64], out: &mut [u8]) -> Result<Plan, Refusal>
    requires { (cell_count checked.header.tasks checked.header.cores ≤ length cells.now) × (checked.header.tasks ≤ length out.old) }
    ensures { TookFrom checked.entry.table.now cells.now out.old result out.new }
{
    let m = checked.header.cores as usize;
    let start = checked.header.tasks as usize * (m + 1);
    let row = &cells[start..start + m + 1];
    let cost = reads(row[m]);
    if cost == cells::MARK {
        return Err(Reason::NoPlan.at(0));
    }
    let used = smallest(row, m);
    let Some(modes) = trace(checked, cells, used) else {
        return Err(Reason::Altered.at(0));
    };
    put(modes.as_slice(), out);
    let cores = used as u32;
    Ok(Plan { cores, cost })
}

// The table's checks, then whether the workspace and the output are long enough for it: its header, or the first refusal.
pub fn check_lent(table: &[u8], cells: usize, out: usize) -> Result<Header, Refusal>
    ensures { said_of the_header result ≡ first (lent_rows table.now cells out) (header_said (header_block table.now)) }
{
    let header = check(table)?;
    let checked = Checked { table, header };
    if cells < checked.cell_count() {
        return Err(Reason::Room.at(0));
    }
    if out < header.tasks as usize {
        return Err(Reason::Room.at(0));
    }
    Ok(header)
}

// Takes the plan, after the table's checks and those of what is lent.
pub fn take(table: &[u8], cells: &[u64], progress: u32, out: &mut [u8]) -> Result<Plan, Refusal>
    ensures { TookPlan table.now cells.now progress out.old result out.new }
{
    let header = check_lent(table, cells.len(), out.len())?;
    let checked = Checked { table, header };
    let p = progress as usize;
    if checked.cell_count() < p {
        return Err(Reason::Beyond.at(0));
    }
    if p < checked.cell_count() {
        return Err(Reason::Unfilled.at(0));
    }
    take_from(checked, cells, out)
}
