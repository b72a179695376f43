// Reads a table from standard input and prints its plan, or the refusal. No rule of its own.
#![tactic(auto)]

ghost use Rattle.std.specs.Prelude.{◌≤◌, ◌++◌, length, codes, Some};
ghost use Rattle.std.specs.Fmt.{decimal};
ghost use Rattle.answer.specs.Said.{number_of};

use answer::{Reason, Refusal};
use choices::ask_choice;
use model::{MOST_CELLS, MOST_TASKS};
use std::io::Read;
use std::{fmt, io};
use table::check;
use taking::Plan;
use whole::plan_whole;

// The bytes of the largest lawful table.
const MOST_BYTES: usize = 512 * (MOST_TASKS + 1);

// The cores of a mode; 0 of a mode that is not there, which no plan names.
fn cores_of(table: &[u8], task: u32, mode: u32) -> u32 {
    ask_choice(table, task, mode).map_or(0, |choice| choice.cores)
}

// The plan: cores used, cores available and cost, and a line for each task. A table that is refused has none to show.
fn show_plan(rt: &impl Print, table: &[u8], plan: Plan, modes: &[u8]) -> io::Result<()> {
    let Ok(header) = check(table) else {
        return Ok(());
    };
    println!(rt;
        "plan {} of {} cost {}",
        plan.cores, header.cores, plan.cost
    )?;
    for (task, mode) in (0..u32::from(header.tasks)).zip(modes) {
        println!(rt; "{task} {mode} {}", cores_of(table, task, u32::from(*mode)))?;
    }
    Ok(())
}

// A refusal as it is printed: its number and its place. The type is private, since no public `fmt` has a settled outcome.
#[derive(Clone, Copy)]
struct Shown(Refusal);

impl fmt::Display for Shown {
    ghost output = { λ shown. Some (codes "refused " ++ (decimal (number_of shown.0.reason) ++ (codes " at " ++ decimal shown.0.at))) };

    fn fmt<W: fmt::Write>(&self, f: &mut fmt::Formatter<W>) -> fmt::Result {
        write!(f, "refused {} at {}", self.0.reason.number(), self.0.at)
    }
}

fn show_refusal(rt: &impl Print, refusal: Refusal) -> io::Result<()> {
    println!(rt; "{}", Shown(refusal))
}

fn answer(rt: &impl Print, table: &[u8]) -> io::Result<()> {
    // room for the largest table
    let mut cells = [0u64; MOST_CELLS];
    let mut modes = [0u8; MOST_TASKS];
    match plan_whole(table, &mut cells, &mut modes) {
        Ok(plan) => show_plan(rt, table, plan, &modes),
        Err(refusal) => show_refusal(rt, refusal),
    }
}

// Reads until the room is full, the input ends or a read fails; the bytes that were read. They are counted by hand, since `read_exact`
// and `read_to_end` keep none of them where a read fails, or want a heap.
fn read_full<'a>(input: &mut impl Read, room: &'a mut [u8]) -> &'a [u8]
    ensures { length result.now ≤ length room.old }
{
    let mut done = 0;
    while let Ok(count @ 1..) = input.read(&mut room[done..]) {
        done += count;
    }
    &room[..done]
}

fn main(rt: HostRuntime) -> io::Result<()> {
    // one byte more than the largest lawful table
    let mut room = [0u8; MOST_BYTES + 1];
    let table = read_full(&mut rt.stdin(), &mut room);
    // no lawful table is longer, whatever its header says
    if MOST_BYTES < table.len() {
        return show_refusal(&rt, Reason::Blocks.at(0));
    }
    answer(&rt, table)
}
