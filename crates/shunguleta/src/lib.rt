// The planner's calls with a plain reply for an answer, as C and Rust see them. No rule of its own.
#![tactic(auto)]

ghost use Rattle.std.specs.Prelude.{◌≡◌};
ghost use Rattle.answer.specs.Said.{Said, filled, written, said_of};
ghost use Rattle.table.specs.Said.{the_header, the_task};
ghost use Rattle.table.specs.Order.{figures_said, table_said, ask_task_said, ask_mode_said};
ghost use Rattle.choices.specs.Said.{the_choice, ask_choice_said};
ghost use Rattle.writer.specs.Said.{said as written_said};
ghost use Rattle.writer.specs.Order.{WroteHeader, WroteTask};
ghost use Rattle.portions.specs.Said.{said as filling_said};
ghost use Rattle.portions.specs.Portion.{Portioned};
ghost use Rattle.taking.specs.Said.{the_plan, said as taken_said};
ghost use Rattle.taking.specs.Take.{TookPlan};
ghost use Rattle.whole.specs.Whole.{PlannedWhole};
ghost use Rattle.shunguleta.specs.Reply.{reply_of, Replied};

use answer::Refusal;
use block::{Header, Task};
use choices::Choice;
use model::Figures;
use taking::Plan;

// An answer: a refusal's number and place; or number 0, and the call's values in their order, 0 for the rest.
#[repr(C)]
#[derive(Clone, Copy, PartialEq, Eq)]
pub struct Reply {
    pub number: u32,
    pub at: u32,
    pub values: [u64; 3],
}

// What a call gives where it is not refused, as a reply's values.
trait Given: Sized {
    ghost says: { Self → Said };

    fn values(self) -> [u64; 3]
        ensures { reply_of (says self) ≡ record { number = 0; at = 0; values = result } };
}

impl Given for Header {
    ghost says = { the_header };

    fn values(self) -> [u64; 3] {
        [
            u64::from(self.tasks),
            u64::from(self.cores),
            u64::from(self.common),
        ]
    }
}

impl Given for Task {
    ghost says = { the_task };

    fn values(self) -> [u64; 3] {
        [
            u64::from(self.elasticity),
            u64::from(self.modes),
            u64::from(self.permitted),
        ]
    }
}

impl Given for Figures {
    ghost says = { figures_said };

    fn values(self) -> [u64; 3] {
        [
            u64::from(self.work),
            u64::from(self.span),
            u64::from(self.period),
        ]
    }
}

impl Given for Choice {
    ghost says = { the_choice };

    fn values(self) -> [u64; 3] {
        [u64::from(self.permitted), u64::from(self.cores), self.cost]
    }
}

// A new progress.
impl Given for u32 {
    ghost says = { filled };

    fn values(self) -> [u64; 3] {
        [u64::from(self), 0, 0]
    }
}

impl Given for Plan {
    ghost says = { the_plan };

    fn values(self) -> [u64; 3] {
        [u64::from(self.cores), self.cost, 0]
    }
}

// A block is written.
impl Given for () {
    ghost says = { λ x. written };

    fn values(self) -> [u64; 3] {
        [0, 0, 0]
    }
}

impl<T: Given> From<Result<T, Refusal>> for Reply {
    ghost from_gives = { λ answer reply. reply ≡ reply_of (said_of T.says answer) };

    fn from(answer: Result<T, Refusal>) -> Reply {
        match answer {
            Ok(given) => Reply {
                number: 0,
                at: 0,
                values: given.values(),
            },
            Err(refusal) => Reply {
                number: u32::from(refusal.reason.number()),
                at: refusal.at,
                values: [0, 0, 0],
            },
        }
    }
}

// The calls, each with the promise of the one that it makes, and its numbers one by one as C has them.
pub fn shunguleta_check(table: &[u8]) -> Reply
    ensures { Replied (said_of the_header) (λ answer. said_of the_header answer ≡ table_said table.now) result }
{
    Reply::from(table::check(table))
}

pub fn shunguleta_ask_task(table: &[u8], task: u32) -> Reply
    ensures { Replied (said_of the_task) (λ answer. said_of the_task answer ≡ ask_task_said table.now task) result }
{
    Reply::from(table::ask_task(table, task))
}

pub fn shunguleta_ask_mode(table: &[u8], task: u32, mode: u32) -> Reply
    ensures { Replied (said_of figures_said) (λ answer. said_of figures_said answer ≡ ask_mode_said table.now task mode) result }
{
    Reply::from(table::ask_mode(table, task, mode))
}

pub fn shunguleta_ask_choice(table: &[u8], task: u32, mode: u32) -> Reply
    ensures { Replied (said_of the_choice) (λ answer. said_of the_choice answer ≡ ask_choice_said table.now task mode) result }
{
    Reply::from(choices::ask_choice(table, task, mode))
}

pub fn shunguleta_portion(table: &[u8], cells: &mut [u64], progress: u32, budget: u32) -> Reply
    ensures { Replied filling_said (λ answer. Portioned table.now cells.old progress budget answer cells.new) result }
{
    Reply::from(portions::portion(table, cells, progress, budget))
}

pub fn shunguleta_take(table: &[u8], cells: &[u64], progress: u32, out: &mut [u8]) -> Reply
    ensures { Replied taken_said (λ answer. TookPlan table.now cells.now progress out.old answer out.new) result }
{
    Reply::from(taking::take(table, cells, progress, out))
}

pub fn shunguleta_write_header(tasks: u16, cores: u16, common: u32, out: &mut [u8]) -> Reply
    ensures { Replied written_said (λ answer. WroteHeader tasks cores common out.old answer out.new) result }
{
    let header = Header {
        tasks,
        cores,
        common,
    };
    Reply::from(writer::write_header(header, out))
}

pub fn shunguleta_write_task(
    common: u32,
    number: u16,
    elasticity: u8,
    modes: u8,
    permitted: u16,
    figures: &[u32],
    out: &mut [u8],
) -> Reply
    ensures { Replied written_said
        (λ answer. WroteTask common number elasticity modes permitted figures.now out.old answer out.new) result }
{
    let task = Task {
        elasticity,
        modes,
        permitted,
    };
    Reply::from(writer::write_task(common, number, task, figures, out))
}

pub fn shunguleta_plan_whole(table: &[u8], cells: &mut [u64], out: &mut [u8]) -> Reply
    ensures { Replied taken_said (λ answer. PlannedWhole table.now cells.old out.old answer cells.new out.new) result }
{
    Reply::from(whole::plan_whole(table, cells, out))
}
