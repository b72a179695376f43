// Reading a table: its checks in the document's order, and its numbers.
#![tactic(auto)]

ghost use Rattle.std.specs.Prelude.{◌≡◌, not, ◌+◌, ◌*◌, eqb};
ghost use Rattle.answer.specs.Said.{said_of};
ghost use Rattle.answer.specs.Order.{first};
ghost use Rattle.block.specs.Bytes.{number};
ghost use Rattle.block.specs.Layout.{header_unused, task_number_in, task_unused, figures_in};
ghost use Rattle.block.specs.Tests.{figure_rows};
ghost use Rattle.table.specs.Said.{the_header, the_task};
ghost use Rattle.table.specs.inner.Part.{Part};
ghost use Rattle.table.specs.Order.{
  header_block,
  wrong_check,
  header_rows,
  header_said,
  task_rows,
  task_said,
  figures_said,
  whole_task_rows,
  wrong_length,
  other_length,
  front_rows,
  table_said,
  ask_task_said,
  ask_mode_said,
};

mod checked;

use answer::{Reason, Refusal};
use block::{Header, Number, Task, check_of, figures_at, is_zero, wrong_period, wrong_work};
pub use checked::Checked;
use model::Figures;

// The 512 bytes from an offset on; fewer where the bytes end before. By cases, and not by `min`: a whole block's length is then a constant,
// without which a table's check takes 2 to 4 percent more instructions.
fn block_from(bytes: &[u8], start: usize) -> &[u8]
    ensures { Part start bytes.entry result }
{
    let len = bytes.len();
    if len <= start {
        return &bytes[len..len];
    }
    if len - start <= 512 {
        return &bytes[start..len];
    }
    &bytes[start..start + 512]
}

// The block of a task, a part of the lent table: the one way to its bytes.
pub fn task_block(table: &[u8], task: u32) -> &[u8]
    ensures { Part (512 * (task + 1)) table.entry result }
{
    block_from(table, 512 * (task as usize + 1))
}

fn wrong_check(block: &[u8]) -> bool
    ensures { result ≡ wrong_check block.now }
{
    check_of(block) != u32::get(block, 508)
}

// Whether the byte at an offset is another than the one that has to stand there.
fn other_byte(block: &[u8], offset: usize, right: u8) -> bool
    ensures { result ≡ not (eqb (number 1 offset block.now) right) }
{
    u8::get(block, offset) != right
}

fn header_unused(block: &[u8]) -> bool
    ensures { result ≡ header_unused block.now }
{
    !is_zero(block, 6, 8) | !is_zero(block, 12, 508)
}

// The numbers of a header block, after its tests.
fn read_header(block: &[u8]) -> Result<Header, Refusal>
    ensures { said_of the_header result ≡ first (header_rows block.now) (header_said block.now) }
{
    let header = Header::read(block);
    if wrong_check(block) {
        return Err(Reason::Check.at(0));
    }
    if other_byte(block, 0, 1) {
        return Err(Reason::Kind.at(0));
    }
    if other_byte(block, 1, 1) {
        return Err(Reason::Edition.at(0));
    }
    if header.wrong_limits() {
        return Err(Reason::Limits.at(0));
    }
    if header_unused(block) {
        return Err(Reason::Unused.at(0));
    }
    Ok(header)
}

fn other_number(block: &[u8], number: u32) -> bool
    ensures { result ≡ not (eqb (task_number_in block.now) number) }
{
    u32::from(u16::get(block, 6)) != number
}

fn task_unused(block: &[u8]) -> bool
    ensures { result ≡ task_unused block.now }
{
    let end = 8 + 12 * usize::from(u8::get(block, 2));
    !is_zero(block, 3, 4) | !is_zero(block, end, 508)
}

// The numbers of a task block, after its tests: the task number has to be `number`, and a refusal names `at`.
fn read_task(block: &[u8], number: u32, at: u32) -> Result<Task, Refusal>
    ensures { said_of the_task result ≡ first (task_rows number at block.now) (task_said block.now) }
{
    let task = Task::read(block);
    if wrong_check(block) {
        return Err(Reason::Check.at(at));
    }
    if other_byte(block, 0, 2) {
        return Err(Reason::Kind.at(at));
    }
    if other_number(block, number) {
        return Err(Reason::Number.at(at));
    }
    if task.wrong_shape() {
        return Err(Reason::Shape.at(at));
    }
    if task.wrong_permitted() {
        return Err(Reason::Permitted.at(at));
    }
    if task_unused(block) {
        return Err(Reason::Unused.at(at));
    }
    Ok(task)
}

// A mode's figures, after their tests; a refusal names `at`.
pub fn test_figures(common: u32, figures: Figures, at: u32) -> Result<Figures, Refusal>
    ensures { said_of figures_said result ≡ first (figure_rows at common figures) (figures_said figures) }
{
    if wrong_period(common, figures.period) {
        return Err(Reason::Period.at(at));
    }
    if wrong_work(figures) {
        return Err(Reason::Work.at(at));
    }
    if !figures.meets_period() {
        return Err(Reason::Late.at(at));
    }
    Ok(figures)
}

// A task block, then its modes in turn.
fn check_task(block: &[u8], common: u32, number: u32, at: u32) -> Result<Task, Refusal>
    ensures { said_of the_task result ≡ first (whole_task_rows common number at block.now) (task_said block.now) }
{
    let task = read_task(block, number, at)?;
    for mode in 0..task.modes {
        test_figures(common, figures_at(block, mode), at)?;
    }
    Ok(task)
}

fn wrong_length(table: &[u8]) -> bool
    ensures { result ≡ wrong_length table.now }
{
    table.is_empty() | !table.len().is_multiple_of(512)
}

fn other_length(table: &[u8], tasks: u16) -> bool
    ensures { result ≡ other_length table.now tasks }
{
    table.len() != 512 * (usize::from(tasks) + 1)
}

// The length of a table and its header.
fn check_front(table: &[u8]) -> Result<Header, Refusal>
    ensures { said_of the_header result ≡ first (front_rows table.now) (header_said (header_block table.now)) }
{
    if wrong_length(table) {
        return Err(Reason::Length.at(0));
    }
    let header = read_header(block_from(table, 0))?;
    if other_length(table, header.tasks) {
        return Err(Reason::Blocks.at(0));
    }
    Ok(header)
}

// The header of a lawful table, or its first refusal.
pub fn check(table: &[u8]) -> Result<Header, Refusal>
    ensures { said_of the_header result ≡ table_said table.now }
{
    let header = check_front(table)?;
    for task in 0..u32::from(header.tasks) {
        check_task(task_block(table, task), header.common, task, task + 1)?;
    }
    Ok(header)
}

// The numbers of a task of a lawful table.
pub fn ask_task(table: &[u8], task: u32) -> Result<Task, Refusal>
    ensures { said_of the_task result ≡ ask_task_said table.now task }
{
    let header = check(table)?;
    if u32::from(header.tasks) <= task {
        return Err(Reason::NoneSuch.at(0));
    }
    Ok(Task::read(task_block(table, task)))
}

// The figures of a mode of a lawful table.
pub fn ask_mode(table: &[u8], task: u32, mode: u32) -> Result<Figures, Refusal>
    ensures { said_of figures_said result ≡ ask_mode_said table.now task mode }
{
    let asked = ask_task(table, task)?;
    if u32::from(asked.modes) <= mode {
        return Err(Reason::NoneSuch.at(0));
    }
    Ok(figures_at(task_block(table, task), mode as u8))
}
