// Writes the document's sample table to standard output, block by block through the writers; in place of a block that is refused, a
// line with the refusal.
#![tactic(auto)]

use answer::Refusal;
use block::{Header, Task};
use std::io;
use writer::{write_header, write_task};

fn show(rt: &impl Print, answer: Result<(), Refusal>, block: &[u8]) -> io::Result<()> {
    match answer {
        Ok(()) => rt.write_all(block),
        Err(refusal) => println!(rt; "refused {} at {}", refusal.reason.number(), refusal.at),
    }
}

fn main(rt: HostRuntime) -> io::Result<()> {
    let header = Header {
        tasks: 2,
        cores: 4,
        common: 1000,
    };
    let first = Task {
        elasticity: 1,
        modes: 2,
        permitted: 0b11,
    };
    let second = Task {
        elasticity: 2,
        modes: 3,
        permitted: 0b111,
    };
    let first_figures = [1800u32, 200, 1000, 900, 200, 1000];
    let second_figures = [1400u32, 200, 500, 1400, 200, 1000, 700, 100, 500];
    // not zero, so that each zero byte of the table is the writers' own
    let mut block = [255u8; 512];
    let written = write_header(header, &mut block);
    show(&rt, written, &block)?;
    let written = write_task(1000, 0, first, &first_figures, &mut block);
    show(&rt, written, &block)?;
    let written = write_task(1000, 1, second, &second_figures, &mut block);
    show(&rt, written, &block)
}
