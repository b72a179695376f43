// One block: the numbers in its bytes, its check, its unused bytes, and the tests that reading and writing share. Nothing here
// requires anything: a block is whatever slice is lent, and past its end 0 is read.
#![tactic(auto)]

ghost use Rattle.std.specs.Prelude.{◌≡◌, ℕ};
ghost use Rattle.block.specs.Bytes.{number, check_of, zeros};
ghost use Rattle.block.specs.Layout.{figures_in};
ghost use Rattle.block.specs.Tests.{
  wrong_common,
  wrong_limits,
  wrong_shape,
  allows,
  wrong_permitted,
  wrong_period,
  wrong_work,
};

use model::{Figures, MOST_CORES, MOST_MODES, MOST_TASKS};

// A number of a block, least significant byte first. A wider one is two of half its width, each of which may lie past the end; an array
// of bytes for `from_le_bytes` would be no plainer.
pub trait Number: Sized {
    // How many bytes it has.
    ghost width: { ℕ };

    ghost value: { Self → ℕ };

    // The number at an offset, whatever the offset.
    fn get(block: &[u8], at: usize) -> Self
        ensures { value result ≡ number width at block.now };

    // The value is all that there is to it.
    ghost laws: { (x y : Self) → value x ≡ value y → x ≡ y };
}

impl Number for u8 {
    ghost width = { 1 };

    ghost value = { λ x. x };

    ghost laws = { λ x y same. same };

    fn get(block: &[u8], at: usize) -> u8 {
        block.get(at).copied().unwrap_or(0)
    }
}

impl Number for u16 {
    ghost width = { 2 };

    ghost value = { λ x. x };

    ghost laws = { λ x y same. same };

    fn get(block: &[u8], at: usize) -> u16 {
        let low = u8::get(block, at);
        // no slice is so long that a byte stands at the highest offset
        let high = u8::get(block, at.saturating_add(1));
        low as u16 + 256 * high as u16
    }
}

impl Number for u32 {
    ghost width = { 4 };

    ghost value = { λ x. x };

    ghost laws = { λ x y same. same };

    fn get(block: &[u8], at: usize) -> u32 {
        let low = u16::get(block, at);
        let high = u16::get(block, at.saturating_add(2));
        low as u32 + 65536 * high as u32
    }
}

// The check of a block: the sum of (offset + 1) times the byte, over offsets 0 to 507. Most of the time that checking a table takes is
// this loop's and that of `is_zero`: neither asks of each byte whether it is there, or stops before the end.
pub fn check_of(block: &[u8]) -> u32
    ensures { result ≡ check_of block.now }
{
    let end = block.len().min(508);
    let mut sum: u32 = 0;
    for (i, &byte) in block[..end].iter().enumerate() {
        // no wider than it has to be: more of them are multiplied at a time
        let weight = i as u16 + 1;
        sum += weight as u32 * byte as u32;
    }
    sum
}

// Whether the bytes from one offset up to another are zero. The document's rows name the two offsets; a range of them is no plainer.
pub fn is_zero(block: &[u8], from: usize, to: usize) -> bool
    ensures { result ≡ zeros from to block.now }
{
    let end = block.len().min(to);
    let start = end.min(from);
    block[start..end].iter().fold(0, |seen, byte| seen | byte) == 0
}

// The numbers of a header block: how many tasks and cores, and the common period.
#[derive(Clone, Copy, PartialEq, Eq)]
pub struct Header {
    pub tasks: u16,
    pub cores: u16,
    pub common: u32,
}

impl Header {
    ghost use Rattle.block.specs.inner.Records.{header_in};

    // As they stand there, with no test.
    pub fn read(block: &[u8]) -> Header
        ensures { result ≡ header_in block.now }
    {
        Header {
            tasks: u16::get(block, 2),
            cores: u16::get(block, 4),
            common: u32::get(block, 8),
        }
    }

    // Whether the tasks, the cores or the common period are beyond their limits.
    pub fn wrong_limits(self) -> bool
        ensures { result ≡ wrong_limits self.tasks self.cores self.common }
    {
        !(1..=MOST_TASKS).contains(&(self.tasks as usize))
            | !(1..=MOST_CORES).contains(&(self.cores as usize))
            | wrong_common(self.common)
    }
}

// Whether the common period is beyond its limits.
pub fn wrong_common(common: u32) -> bool
    ensures { result ≡ wrong_common common }
{
    !(1..=100000).contains(&common)
}

// The numbers of a task block: the elasticity, how many modes it has, and which of them are permitted, as a mask.
#[derive(Clone, Copy, PartialEq, Eq)]
pub struct Task {
    pub elasticity: u8,
    pub modes: u8,
    pub permitted: u16,
}

impl Task {
    ghost use Rattle.block.specs.inner.Records.{task_in};

    // As they stand there, with no test.
    pub fn read(block: &[u8]) -> Task
        ensures { result ≡ task_in block.now }
    {
        Task {
            elasticity: u8::get(block, 1),
            modes: u8::get(block, 2),
            permitted: u16::get(block, 4),
        }
    }

    // Whether the elasticity or the mode count is beyond its limits.
    pub fn wrong_shape(self) -> bool
        ensures { result ≡ wrong_shape self.elasticity self.modes }
    {
        !(1..=10).contains(&self.elasticity) | !(1..=MOST_MODES).contains(&(self.modes as usize))
    }

    // Whether mode j is permitted: bit j of the mask. There is no mode 16.
    pub fn permits(self, j: u8) -> bool
        ensures { result ≡ allows self.permitted j }
    {
        j < 16 && (self.permitted >> j) & 1 == 1
    }

    // Whether no mode is permitted, or one at or beyond the count. The mask has no bit from 16 on.
    pub fn wrong_permitted(self) -> bool
        ensures { result ≡ wrong_permitted self.permitted self.modes }
    {
        self.permitted == 0 || (self.modes < 16 && self.permitted >> self.modes != 0)
    }
}

// The figures of a mode of a task block, as they stand there.
pub fn figures_at(block: &[u8], mode: u8) -> Figures
    ensures { result ≡ figures_in block.now mode }
{
    let from = 12 * usize::from(mode);
    Figures {
        work: u32::get(block, 8 + from),
        span: u32::get(block, 12 + from),
        period: u32::get(block, 16 + from),
    }
}

// Whether a mode's period is zero or does not divide the common period.
pub fn wrong_period(common: u32, period: u32) -> bool
    ensures { result ≡ wrong_period common period }
{
    period == 0 || common % period != 0
}

// Whether work or span is zero, the span above the work, or the work above 64 periods.
pub fn wrong_work(figures: Figures) -> bool
    ensures { result ≡ wrong_work figures.work figures.span figures.period }
{
    let Figures { work, span, period } = figures;
    (work == 0) | (span == 0) | (work < span) | (64 * u64::from(period) < u64::from(work))
}
