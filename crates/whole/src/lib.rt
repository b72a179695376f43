// The planner in one call, with one check of the table. Its promise is the plan itself.
#![tactic(auto)]

ghost use Rattle.std.specs.Prelude.{◌≡◌, leb};
ghost use Rattle.model.specs.inner.Fitting.{least_cores};
ghost use Rattle.choices.specs.Tasks.{tasks_of_table};
ghost use Rattle.whole.specs.Whole.{PlannedWhole};

use answer::{Reason, Refusal};
use choices::least_need;
use portions::fill_rows;
use table::{Checked, task_block};
use taking::{Plan, check_lent, take_from};

// Whether a selection fits: the least needs of the tasks add up to at most the cores.
fn fits(checked: Checked) -> bool
    ensures { result ≡ leb (least_cores (tasks_of_table checked.entry.table.now)) checked.entry.header.cores }
{
    let mut left = u64::from(checked.header.cores);
    for task in 0..u32::from(checked.header.tasks) {
        let need = least_need(task_block(checked.table, task));
        let Some(rest) = left.checked_sub(need) else {
            return false;
        };
        left = rest;
    }
    true
}

// Plans in one call: fills every cell, then takes the plan. Under a refusal nothing changes: whether a selection fits is known before a
// cell is touched.
pub fn plan_whole(table: &[u8], cells: &mut [u64], out: &mut [u8]) -> Result<Plan, Refusal>
    ensures { PlannedWhole table.now cells.old out.old result cells.new out.new }
{
    let header = check_lent(table, cells.len(), out.len())?;
    let checked = Checked { table, header };
    if !fits(checked) {
        return Err(Reason::NoPlan.at(0));
    }
    fill_rows(checked, cells, 0, checked.cell_count());
    take_from(checked, &*cells, out)
}
