// Makes the planner's stored calls, through the interface for C and Rust, and prints a line for each. No rule of its own.
//
// The file `calls` is a run of records, every number least significant byte first. Kind 0 is the base of the tables that follow: its
// length (16 bits) and its bytes. Kinds 1 to 9 are calls, with this head:
//
//   0, 1        kind; workspace: 0 fresh, 1 as the last call left it
//   2, 4, 6     bytes of the table, cells, and bytes of the output that are lent (16 bits each)
//   8, 12, 16   the call's numbers in the order of its parameters (32 bits each)
//   20, 21      E and mode count, for the task writer
//   22, 24, 26  how many bytes differ from the base, how many cells from the workspace, how many figures there are (16 bits each)
//   28          letters of the name; zeros up to 32
//
// Then come the name, those bytes (offset in 16 bits, byte), those cells (number in 16 bits, value in 64) and the figures (32 bits each).
// Every cell of a fresh workspace holds 77, and every byte of the output 170 before the call.
#![tactic(auto)]

use block::Number;
use shunguleta::{
    Reply, shunguleta_ask_choice, shunguleta_ask_mode, shunguleta_ask_task, shunguleta_check,
    shunguleta_plan_whole, shunguleta_portion, shunguleta_take, shunguleta_write_header,
    shunguleta_write_task,
};
use std::fs::File;
use std::io::Read;
use std::{fmt, io};

// The most that a call is lent: bytes of a table, cells, bytes of output, figures. And the letters of the longest name.
const TABLE: usize = 17408;

const CELLS: usize = 2200;

const OUT: usize = 600;

const FIGURES: usize = 60;

const NAME: usize = 96;

// Why the run ends: there is no further record, it is cut or unlawful, or its line cannot be printed.
#[derive(Debug, Drop)]
enum Stop {
    NoRecord,
    BadRecord,
    NoOutput(io::Error),
}

impl From<io::Error> for Stop {
    fn from(error: io::Error) -> Stop {
        Stop::NoOutput(error)
    }
}

// What a record is.
#[derive(Clone, Copy, Debug, PartialEq, Eq)]
enum Kind {
    Base,
    Call(Call),
}

#[derive(Clone, Copy, Debug, PartialEq, Eq)]
enum Call {
    Check,
    AskTask,
    AskMode,
    AskChoice,
    Portion,
    Take,
    WriteHeader,
    WriteTask,
    PlanWhole,
}

impl TryFrom<u8> for Kind {
    type Error = Stop;

    fn try_from(byte: u8) -> Result<Kind, Stop> {
        match byte {
            0 => Ok(Kind::Base),
            1 => Ok(Kind::Call(Call::Check)),
            2 => Ok(Kind::Call(Call::AskTask)),
            3 => Ok(Kind::Call(Call::AskMode)),
            4 => Ok(Kind::Call(Call::AskChoice)),
            5 => Ok(Kind::Call(Call::Portion)),
            6 => Ok(Kind::Call(Call::Take)),
            7 => Ok(Kind::Call(Call::WriteHeader)),
            8 => Ok(Kind::Call(Call::WriteTask)),
            9 => Ok(Kind::Call(Call::PlanWhole)),
            _ => Err(Stop::BadRecord),
        }
    }
}

impl Call {
    fn may_write_output(self) -> bool {
        matches!(
            self,
            Call::Take | Call::WriteHeader | Call::WriteTask | Call::PlanWhole
        )
    }

    fn may_write_cells(self) -> bool {
        matches!(self, Call::Portion | Call::PlanWhole)
    }
}

#[derive(Clone, Copy, Debug, PartialEq, Eq)]
enum Workspace {
    Fresh,
    AsLeft,
}

impl TryFrom<u8> for Workspace {
    type Error = Stop;

    fn try_from(byte: u8) -> Result<Workspace, Stop> {
        match byte {
            0 => Ok(Workspace::Fresh),
            1 => Ok(Workspace::AsLeft),
            _ => Err(Stop::BadRecord),
        }
    }
}

// The file's next bytes, so many of them, at the start of a buffer that may have too little room.
fn fill<'a>(file: &mut File, room: &'a mut [u8], count: usize) -> Result<&'a [u8], Stop> {
    let bytes = room.get_mut(..count).ok_or(Stop::BadRecord)?;
    file.read_exact(bytes).map_err(|_| Stop::BadRecord)?;
    Ok(bytes)
}

fn fetch<const N: usize>(file: &mut File) -> Result<[u8; N], Stop> {
    let mut bytes = [0u8; N];
    fill(file, &mut bytes, N)?;
    Ok(bytes)
}

// A number of two bytes that counts something, or names a place.
fn count_of(bytes: [u8; 2]) -> usize {
    usize::from(u16::from_le_bytes(bytes))
}

// What differs is read at once, place and value, since a file has no buffer: a byte that differs from the base, and where. One reader for
// each kind: a bound `Fn([u8; N]) -> T` for one generic reader gets no proof, and two impls of a trait are no plainer.
fn fetch_byte(file: &mut File) -> Result<(usize, u8), Stop> {
    let [p0, p1, byte] = fetch::<3>(file)?;
    Ok((count_of([p0, p1]), byte))
}

// A cell that differs from the workspace, and where.
fn fetch_cell(file: &mut File) -> Result<(usize, u64), Stop> {
    let [p0, p1, b0, b1, b2, b3, b4, b5, b6, b7] = fetch::<10>(file)?;
    Ok((
        count_of([p0, p1]),
        u64::from_le_bytes([b0, b1, b2, b3, b4, b5, b6, b7]),
    ))
}

// What differs from the base or the workspace: so many times a place, and what stands there.
fn patch<T: Copy, F: Fn(&mut File) -> Result<(usize, T), Stop>>(
    file: &mut File,
    count: usize,
    places: &mut [T],
    fetch_entry: F,
) -> Result<(), Stop>
    requires { F.IsAlwaysCallable fetch_entry }
{
    for _ in 0..count {
        let (at, value) = fetch_entry(file)?;
        let place = places.get_mut(at).ok_or(Stop::BadRecord)?;
        *place = value;
    }
    Ok(())
}

// The head of a call.
#[derive(Clone, Copy, Debug)]
struct Head {
    call: Call,
    workspace: Workspace,
    lent_bytes: usize,
    lent_cells: usize,
    lent_out: usize,
    numbers: [u32; 3],
    elasticity: u8,
    modes: u8,
    other_bytes: usize,
    other_cells: usize,
    figures: usize,
    letters: u8,
}

impl Head {
    // What follows the kind, read as one.
    fn fetch(file: &mut File, call: Call) -> Result<Head, Stop> {
        let mut bytes = [0u8; 32];
        fill(file, &mut bytes[1..], 31)?;
        let count = |at| usize::from(u16::get(&bytes, at));
        Ok(Head {
            call,
            workspace: Workspace::try_from(bytes[1])?,
            lent_bytes: count(2),
            lent_cells: count(4),
            lent_out: count(6),
            numbers: [
                u32::get(&bytes, 8),
                u32::get(&bytes, 12),
                u32::get(&bytes, 16),
            ],
            elasticity: bytes[20],
            modes: bytes[21],
            other_bytes: count(22),
            other_cells: count(24),
            figures: count(26),
            letters: bytes[28],
        })
    }
}

// What a call is lent.
#[derive(Drop)]
struct Lent<'a> {
    table: &'a [u8],
    cells: &'a mut [u64],
    figures: &'a [u32],
    out: &'a mut [u8],
}

// A number for a parameter of 16 bits.
fn short(number: u32) -> u16 {
    (number & 0xffff) as u16
}

impl Lent<'_> {
    // The call itself, with the arguments of its head.
    fn make(&mut self, head: &Head) -> Reply {
        let Lent { table, figures, .. } = *self;
        let cells = &mut *self.cells;
        let out = &mut *self.out;
        let [a, b, c] = head.numbers;
        match head.call {
            Call::Check => shunguleta_check(table),
            Call::AskTask => shunguleta_ask_task(table, a),
            Call::AskMode => shunguleta_ask_mode(table, a, b),
            Call::AskChoice => shunguleta_ask_choice(table, a, b),
            Call::Portion => shunguleta_portion(table, cells, a, b),
            Call::Take => shunguleta_take(table, cells, a, out),
            Call::WriteHeader => shunguleta_write_header(short(a), short(b), c, out),
            Call::WriteTask => shunguleta_write_task(
                a,
                short(b),
                head.elasticity,
                head.modes,
                short(c),
                figures,
                out,
            ),
            Call::PlanWhole => shunguleta_plan_whole(table, cells, out),
        }
    }
}

// An answer as its line has it.
#[derive(Clone, Copy)]
struct Answer(Reply);

impl fmt::Display for Answer {
    fn fmt<W: fmt::Write>(&self, f: &mut fmt::Formatter<W>) -> fmt::Result {
        match &self.0 {
            Reply {
                number: 0,
                values: [first, second, third],
                ..
            } => write!(f, "given {first} {second} {third}"),
            Reply { number, at, .. } => write!(f, "refused {number} at {at}"),
        }
    }
}

// Numbers, with how often where one stands more than once in a row.
#[derive(Clone, Copy)]
struct Runs<'a, T>(&'a [T]);

impl<T: fmt::Display + PartialEq> fmt::Display for Runs<'_, T> {
    fn fmt<W: fmt::Write>(&self, f: &mut fmt::Formatter<W>) -> fmt::Result {
        if self.0.is_empty() {
            return write!(f, "none");
        }
        for (at, run) in self.0.chunk_by(|a, b| a == b).enumerate() {
            if 0 < at {
                write!(f, " ")?;
            }
            match run {
                [] => {}
                [value] => write!(f, "{value}")?,
                [value, ..] => write!(f, "{value}*{}", run.len())?,
            }
        }
        Ok(())
    }
}

// A call's line: its answer, and what it may have written.
fn show(
    rt: &impl Print,
    name: &[u8],
    call: Call,
    answer: Answer,
    lent: &Lent<'_>,
) -> io::Result<()> {
    rt.write_all(name)?;
    print!(rt; ": {answer}")?;
    if call.may_write_output() {
        print!(rt; " out {}", Runs(lent.out))?;
    }
    if call.may_write_cells() {
        print!(rt; " cells {}", Runs(lent.cells))?;
    }
    println!(rt)
}

// What lasts from one record to the next, and the table of a call: a local one would be cleared for each record.
#[derive(Drop)]
struct Stored {
    file: File,
    base: [u8; TABLE],
    table: [u8; TABLE],
    cells: [u64; CELLS],
}

impl Stored {
    // The base of the tables that follow: its bytes, and 0 past them.
    fn fetch_base(&mut self) -> Result<(), Stop> {
        let length = count_of(fetch(&mut self.file)?);
        self.base.fill(0);
        fill(&mut self.file, &mut self.base, length)?;
        Ok(())
    }

    // Makes a call, and shows its answer and what it may have written.
    fn make(&mut self, rt: &impl Print, call: Call) -> Result<(), Stop> {
        let file = &mut self.file;
        let head = Head::fetch(file, call)?;
        let mut letters = [0u8; NAME];
        let name = fill(file, &mut letters, usize::from(head.letters))?;
        if head.workspace == Workspace::Fresh {
            self.cells.fill(77);
        }
        self.table.copy_from_slice(&self.base);
        patch(file, head.other_bytes, &mut self.table, fetch_byte)?;
        patch(file, head.other_cells, &mut self.cells, fetch_cell)?;
        let mut figures = [0u32; FIGURES];
        let figures = figures.get_mut(..head.figures).ok_or(Stop::BadRecord)?;
        let mut listed = [0u8; 4 * FIGURES];
        let (listed, _) = fill(file, &mut listed, 4 * figures.len())?.as_chunks::<4>();
        for (figure, bytes) in figures.iter_mut().zip(listed) {
            *figure = u32::from_le_bytes(*bytes);
        }
        let mut out = [170u8; OUT];
        let mut lent = Lent {
            table: self.table.get(..head.lent_bytes).ok_or(Stop::BadRecord)?,
            cells: self
                .cells
                .get_mut(..head.lent_cells)
                .ok_or(Stop::BadRecord)?,
            figures,
            out: out.get_mut(..head.lent_out).ok_or(Stop::BadRecord)?,
        };
        let answer = Answer(lent.make(&head));
        show(rt, name, call, answer, &lent)?;
        Ok(())
    }

    // The next record, by the kind that it begins with.
    fn record(&mut self, rt: &impl Print) -> Result<(), Stop> {
        let [kind] = fetch::<1>(&mut self.file).map_err(|_| Stop::NoRecord)?;
        match Kind::try_from(kind)? {
            Kind::Base => self.fetch_base(),
            Kind::Call(call) => self.make(rt, call),
        }
    }
}

fn main(rt: HostRuntime) -> io::Result<()> {
    let mut stored = Stored {
        file: File::open(&rt, "calls")?,
        base: [0; TABLE],
        table: [0; TABLE],
        cells: [0; CELLS],
    };
    stored.cells.fill(77);
    // more turns than a stored file has records
    for _ in 0..100000 {
        match stored.record(&rt) {
            Ok(()) => {}
            Err(Stop::NoRecord) => break,
            Err(Stop::BadRecord) => return println!(rt; "bad record"),
            Err(Stop::NoOutput(error)) => return Err(error),
        }
    }
    Ok(())
}
