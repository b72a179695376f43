// One task's choices, from its block: its modes as a row is filled by them, and one of them as it is asked for. Above this no byte of a
// table is read.
#![tactic(auto)]

ghost use Rattle.std.specs.Prelude.{◌≡◌, ◌<◌, map};
ghost use Rattle.answer.specs.Said.{choice, said_of};
ghost use Rattle.cells.specs.inner.Rows.{held};
ghost use Rattle.block.specs.Layout.{modes_in, permitted_in};
ghost use Rattle.block.specs.Tests.{allows};
ghost use Rattle.table.specs.Numbers.{task_numbers_in};
ghost use Rattle.choices.specs.Tasks.{cost_at};
ghost use Rattle.choices.specs.Said.{the_choice, ask_choice_said};
ghost use Rattle.choices.specs.inner.Modes.{need_by, mode_of, modes_of, NeedsLeast, InLimits, AllMeet};

use answer::{Reason, Refusal};
use arrayvec::ArrayVec;
use block::{Number, Task, figures_at};
use cells::Mode;
use model::{Figures, MOST_MODES, cost};
use table::{ask_mode, task_block};

// A need above every column: that of a mode that may not be chosen, which then needs no case of its own where cells are filled.
const NEVER: u64 = u64::MAX;

// The need of mode j of a task, with these figures.
pub fn need_of(task: Task, j: u8, figures: Figures) -> u64
    ensures { result ≡ need_by task.permitted j figures }
{
    if !task.permits(j) {
        return NEVER;
    }
    match figures.cores() {
        Some(cores) => u64::from(cores),
        None => NEVER,
    }
}

// The least need of a mode that may be chosen.
pub fn least_need(block: &[u8]) -> u64
    requires { AllMeet (task_numbers_in block.now) }
    ensures { NeedsLeast (task_numbers_in block.now) result }
{
    let task = Task::read(block);
    (0..task.modes).fold(NEVER, |least, j| {
        least.min(need_of(task, j, figures_at(block, j)))
    })
}

// The modes of a task in turn, in place of those held before: a value handed back would be copied for each row. Mode 0 is the nominal
// mode, whether permitted or not.
pub fn load_modes(block: &[u8], common: u32, modes: &mut ArrayVec<Mode, MOST_MODES>)
    requires { InLimits common (task_numbers_in block.now) }
    ensures { map held modes.new.items ≡ modes_of common (task_numbers_in block.now) }
{
    let task = Task::read(block);
    let nominal = figures_at(block, 0).demand(common);
    modes.clear();
    for j in 0..task.modes {
        let figures = figures_at(block, j);
        modes.push(Mode {
            need: need_of(task, j, figures),
            cost: cost(task.elasticity, nominal, figures.demand(common)),
        });
    }
}

// A mode as the planner sees it.
#[derive(Clone, Copy, PartialEq, Eq)]
pub struct Choice {
    pub permitted: bool,
    pub cores: u32,
    pub cost: u64,
}

// A mode of a task's block, its cores being known.
fn choice_at(block: &[u8], common: u32, j: u8, cores: u32) -> Choice
    requires { InLimits common (task_numbers_in block.now) × (j < modes_in block.now) }
    ensures { the_choice result ≡ choice (allows (permitted_in block.now) j) cores (cost_at common (task_numbers_in block.now) j) }
{
    let task = Task::read(block);
    let demand = figures_at(block, j).demand(common);
    Choice {
        permitted: task.permits(j),
        cores,
        cost: cost(task.elasticity, figures_at(block, 0).demand(common), demand),
    }
}

// A mode of a lawful table as the planner sees it.
pub fn ask_choice(table: &[u8], task: u32, mode: u32) -> Result<Choice, Refusal>
    ensures { said_of the_choice result ≡ ask_choice_said table.now task mode }
{
    let figures = ask_mode(table, task, mode)?;
    let Some(cores) = figures.cores() else {
        // no mode of a lawful table
        return Err(Reason::Late.at(0));
    };
    let common = u32::get(table, 8);
    Ok(choice_at(task_block(table, task), common, mode as u8, cores))
}
