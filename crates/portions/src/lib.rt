// Filling the lent workspace, a portion a call.
#![tactic(auto)]

ghost use Rattle.std.specs.Prelude.{◌≡◌, ◌+◌, ◌-◌, ◌%◌, ◌≤◌, ◌<◌, length};
ghost use Rattle.model.specs.Workspace.{cell_count, fill};
ghost use Rattle.portions.specs.Portion.{rule_of, Portioned};

use answer::{Reason, Refusal};
use arrayvec::ArrayVec;
use cells::fill_run;
use choices::load_modes;
use table::{Checked, check, task_block};

// Fills a run of cells of one row, from one number up to another: two numbers, as the rule counts them, for which a range is no plainer.
// The task's modes are loaded once for the run.
fn row_run(checked: Checked, cells: &mut [u64], from: usize, to: usize)
    requires { (from < cell_count checked.header.tasks checked.header.cores) × (from ≤ to)
        × (to ≤ from + (checked.header.cores + 1 - from % (checked.header.cores + 1))) × (to ≤ length cells.old) }
    ensures { cells.new ≡ fill (rule_of checked.entry.table.now) cells.old from (to - from) }
{
    let width = checked.header.cores as usize + 1;
    let stretch = from / width;
    let (before, rest) = cells.split_at_mut(from);
    let run = &mut rest[..to - from];
    if stretch == 0 {
        run.fill(0);
        return;
    }
    let task = checked.header.tasks as usize - stretch;
    let block = task_block(checked.table, task as u32);
    let mut modes = ArrayVec::new();
    load_modes(block, checked.header.common, &mut modes);
    let column = from % width;
    // of the next row, as many cells as the run can look at
    let next = &before[from - column - width..to - width];
    fill_run(modes.as_slice(), next, run, column);
}

// Fills cells of a table's workspace row by row.
pub fn fill_rows(checked: Checked, cells: &mut [u64], from: usize, to: usize)
    requires { (from ≤ to) × (to ≤ cell_count checked.header.tasks checked.header.cores) × (to ≤ length cells.old) }
    ensures { cells.new ≡ fill (rule_of checked.entry.table.now) cells.old from (to - from) }
{
    let width = checked.header.cores as usize + 1;
    let mut p = from;
    // each step ends where a row does; a `for` over the rows would have to cut the first and the last
    while p < to {
        let stop = to.min(p + (width - p % width));
        row_run(checked, cells, p, stop);
        p = stop;
    }
}

// A portion: fills at most `budget` cells from `progress` on, and answers the new progress. Its own refusals name block 0.
pub fn portion(table: &[u8], cells: &mut [u64], progress: u32, budget: u32) -> Result<u32, Refusal>
    ensures { Portioned table.now cells.old progress budget result cells.new }
{
    let header = check(table)?;
    let checked = Checked { table, header };
    let count = checked.cell_count() as u32;
    if cells.len() < checked.cell_count() {
        return Err(Reason::Room.at(0));
    }
    if count < progress {
        return Err(Reason::Beyond.at(0));
    }
    let to = count.min(progress.saturating_add(budget));
    fill_rows(checked, cells, progress as usize, to as usize);
    Ok(to)
}
