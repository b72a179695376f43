// Writing the blocks of a table: the tests in the document's order, then the 512 bytes. Nothing is written before the last test.
#![tactic(auto)]

ghost use Rattle.std.specs.Prelude.{◌≡◌, not, ◌||◌, ◌*◌, eqb};
ghost use Rattle.answer.specs.Said.{written};
ghost use Rattle.answer.specs.Order.{first};
ghost use Rattle.block.specs.Layout.{threes};
ghost use Rattle.block.specs.Tests.{wrong_shape, modes_rows};
ghost use Rattle.writer.specs.Said.{said};
ghost use Rattle.writer.specs.Order.{room_rows, number_rows, WroteHeader, WroteTask};

use answer::{Reason, Refusal};
use block::{Header, Task, wrong_common};
use model::{Figures, MOST_TASKS};
use puts::{fill_header, fill_task};
use table::test_figures;

// Whether a buffer has room for a block. This refusal and the others of a writer name block 0.
fn test_room(room: usize) -> Result<(), Refusal>
    ensures { said result ≡ first (room_rows room) written }
{
    if room < 512 {
        return Err(Reason::Room.at(0));
    }
    Ok(())
}

// Whether the elasticity or the mode count is beyond its limits, or the figures lent aren't three per mode.
fn wrong_lent(task: Task, lent: usize) -> bool
    ensures { result ≡ (wrong_shape task.elasticity task.modes || not (eqb lent (3 * task.modes))) }
{
    task.wrong_shape() | (lent != 3 * usize::from(task.modes))
}

// The task writer's tests before those of the modes.
fn test_numbers(common: u32, number: u16, task: Task, lent: usize) -> Result<(), Refusal>
    ensures { said result ≡ first (number_rows common number task.elasticity task.modes task.permitted lent) written }
{
    if wrong_common(common) {
        return Err(Reason::Limits.at(0));
    }
    if MOST_TASKS as u16 <= number {
        return Err(Reason::Number.at(0));
    }
    if wrong_lent(task, lent) {
        return Err(Reason::Shape.at(0));
    }
    if task.wrong_permitted() {
        return Err(Reason::Permitted.at(0));
    }
    Ok(())
}

// The tests of the modes in turn, lent as C lends them: three numbers for each.
fn test_modes(common: u32, figures: &[u32]) -> Result<(), Refusal>
    ensures { said result ≡ first (modes_rows 0 common (threes figures.now)) written }
{
    let (modes, _) = figures.as_chunks::<3>();
    for &[work, span, period] in modes {
        test_figures(common, Figures { work, span, period }, 0)?;
    }
    Ok(())
}

// Writes a header block into the first 512 bytes of a buffer.
pub fn write_header(header: Header, out: &mut [u8]) -> Result<(), Refusal>
    ensures { WroteHeader header.tasks header.cores header.common out.old result out.new }
{
    if header.wrong_limits() {
        return Err(Reason::Limits.at(0));
    }
    test_room(out.len())?;
    fill_header(out, header);
    Ok(())
}

// Writes a task block into the first 512 bytes of a buffer.
pub fn write_task(
    common: u32,
    number: u16,
    task: Task,
    figures: &[u32],
    out: &mut [u8],
) -> Result<(), Refusal>
    ensures { WroteTask common number task.elasticity task.modes task.permitted figures.now out.old result out.new }
{
    test_numbers(common, number, task, figures.len())?;
    test_modes(common, figures)?;
    test_room(out.len())?;
    fill_task(out, number, task, figures);
    Ok(())
}
