// The calls for C and Rust: those of `shunguleta` under their own symbols, with slices as pointer and length. No rule of its own, and
// no call is generic: C knows each by its symbol and its numbers.
#![tactic(auto)]

ghost use Rattle.std.specs.Prelude.{◌≡◌};
ghost use Rattle.answer.specs.Said.{said_of};
ghost use Rattle.table.specs.Said.{the_header, the_task};
ghost use Rattle.table.specs.Order.{figures_said, table_said, ask_task_said, ask_mode_said};
ghost use Rattle.choices.specs.Said.{the_choice, ask_choice_said};
ghost use Rattle.writer.specs.Said.{said as written_said};
ghost use Rattle.writer.specs.Order.{WroteHeader, WroteTask};
ghost use Rattle.portions.specs.Said.{said as filling_said};
ghost use Rattle.portions.specs.Portion.{Portioned};
ghost use Rattle.taking.specs.Said.{said as taken_said};
ghost use Rattle.taking.specs.Take.{TookPlan};
ghost use Rattle.whole.specs.Whole.{PlannedWhole};
ghost use Rattle.shunguleta.specs.Reply.{Replied};

use shunguleta::Reply;

#[unsafe(no_mangle)]
pub extern "C" fn shunguleta_check(table: &[u8]) -> Reply
    ensures { Replied (said_of the_header) (λ answer. said_of the_header answer ≡ table_said table.now) result }
{
    shunguleta::shunguleta_check(table)
}

#[unsafe(no_mangle)]
pub extern "C" fn shunguleta_ask_task(table: &[u8], task: u32) -> Reply
    ensures { Replied (said_of the_task) (λ answer. said_of the_task answer ≡ ask_task_said table.now task) result }
{
    shunguleta::shunguleta_ask_task(table, task)
}

#[unsafe(no_mangle)]
pub extern "C" fn shunguleta_ask_mode(table: &[u8], task: u32, mode: u32) -> Reply
    ensures { Replied (said_of figures_said) (λ answer. said_of figures_said answer ≡ ask_mode_said table.now task mode) result }
{
    shunguleta::shunguleta_ask_mode(table, task, mode)
}

#[unsafe(no_mangle)]
pub extern "C" fn shunguleta_ask_choice(table: &[u8], task: u32, mode: u32) -> Reply
    ensures { Replied (said_of the_choice) (λ answer. said_of the_choice answer ≡ ask_choice_said table.now task mode) result }
{
    shunguleta::shunguleta_ask_choice(table, task, mode)
}

#[unsafe(no_mangle)]
pub extern "C" fn shunguleta_portion(
    table: &[u8],
    cells: &mut [u64],
    progress: u32,
    budget: u32,
) -> Reply
    ensures { Replied filling_said (λ answer. Portioned table.now cells.old progress budget answer cells.new) result }
{
    shunguleta::shunguleta_portion(table, cells, progress, budget)
}

#[unsafe(no_mangle)]
pub extern "C" fn shunguleta_take(
    table: &[u8],
    cells: &[u64],
    progress: u32,
    out: &mut [u8],
) -> Reply
    ensures { Replied taken_said (λ answer. TookPlan table.now cells.now progress out.old answer out.new) result }
{
    shunguleta::shunguleta_take(table, cells, progress, out)
}

#[unsafe(no_mangle)]
pub extern "C" fn shunguleta_write_header(
    tasks: u16,
    cores: u16,
    common: u32,
    out: &mut [u8],
) -> Reply
    ensures { Replied written_said (λ answer. WroteHeader tasks cores common out.old answer out.new) result }
{
    shunguleta::shunguleta_write_header(tasks, cores, common, out)
}

#[unsafe(no_mangle)]
pub extern "C" fn shunguleta_write_task(
    common: u32,
    number: u16,
    elasticity: u8,
    modes: u8,
    permitted: u16,
    figures: &[u32],
    out: &mut [u8],
) -> Reply
    ensures { Replied written_said
        (λ answer. WroteTask common number elasticity modes permitted figures.now out.old answer out.new) result }
{
    shunguleta::shunguleta_write_task(common, number, elasticity, modes, permitted, figures, out)
}

#[unsafe(no_mangle)]
pub extern "C" fn shunguleta_plan_whole(table: &[u8], cells: &mut [u64], out: &mut [u8]) -> Reply
    ensures { Replied taken_said (λ answer. PlannedWhole table.now cells.old out.old answer cells.new out.new) result }
{
    shunguleta::shunguleta_plan_whole(table, cells, out)
}
