// Putting the numbers of a block into a lent buffer: its bytes, zero bytes and the check. No test is made here.
#![tactic(auto)]

ghost use Rattle.std.specs.Prelude.{◌≡◌, ◌+◌, ◌-◌, ◌*◌, ◌≤◌};
ghost use Rattle.std.specs.Prelude.{[], ◌∷◌, ◌++◌, length, replicate, take, drop};
ghost use Rattle.block.specs.Bytes.{as_bytes, laid};
ghost use Rattle.block.specs.Whole.{sealed, header_bytes, task_bytes};
ghost use Rattle.puts.specs.inner.Puts.{over, front_widths};

use block::{Header, Number, Task, check_of};

// A number as it is put: as 1, 2 or 4 bytes, least significant first.
trait Put: Number {
    // Puts it at an offset.
    fn put(self, out: &mut [u8], at: usize)
        requires { at + Self.width ≤ length out.old }
        ensures { out.new ≡ over out.old at (as_bytes Self.width (Self.value self)) };
}

impl Put for u8 {
    fn put(self, out: &mut [u8], at: usize) {
        out[at] = self;
    }
}

impl Put for u16 {
    fn put(self, out: &mut [u8], at: usize) {
        out[at..at + 2].copy_from_slice(&self.to_le_bytes());
    }
}

impl Put for u32 {
    fn put(self, out: &mut [u8], at: usize) {
        out[at..at + 4].copy_from_slice(&self.to_le_bytes());
    }
}

// Puts numbers of 32 bits one after the other from an offset on.
fn put_all(out: &mut [u8], at: usize, figures: &[u32])
    requires { at + 4 * length figures.now ≤ length out.old }
    ensures { out.new ≡ over out.old at (laid (replicate (length figures.now) 4) figures.now) }
{
    for (i, figure) in figures.iter().enumerate() {
        figure.put(out, at + 4 * i);
    }
}

// Zero bytes from an offset up to the check.
fn clear(out: &mut [u8], from: usize)
    requires { (from ≤ 508) × (508 ≤ length out.old) }
    ensures { out.new ≡ over out.old from (replicate (508 - from) 0) }
{
    out[from..508].fill(0);
}

// Closes a block whose bytes with a meaning end at an offset: zero bytes, and the check.
fn finish(out: &mut [u8], from: usize)
    requires { (from ≤ 508) × (512 ≤ length out.old) }
    ensures { out.new ≡ sealed (take from out.old) ++ drop 512 out.old }
{
    clear(out, from);
    let check = check_of(out);
    check.put(out, 508);
}

// The first 8 bytes of a block: kind, edition, n, m and zero of a header; kind, E, mode count with the zero byte behind it, permitted modes
// and number of a task.
fn put_front(out: &mut [u8], kind: u8, second: u8, third: u16, fourth: u16, fifth: u16)
    requires { 8 ≤ length out.old }
    ensures { out.new ≡ over out.old 0 (laid front_widths (kind ∷ second ∷ third ∷ fourth ∷ fifth ∷ [])) }
{
    kind.put(out, 0);
    second.put(out, 1);
    third.put(out, 2);
    fourth.put(out, 4);
    fifth.put(out, 6);
}

// The header block, in the first 512 bytes of a buffer, which may be longer: an array of 512 would ask for more.
pub fn fill_header(out: &mut [u8], header: Header)
    requires { 512 ≤ length out.old }
    ensures { out.new ≡ header_bytes header.tasks header.cores header.common ++ drop 512 out.old }
{
    put_front(out, 1, 1, header.tasks, header.cores, 0);
    header.common.put(out, 8);
    finish(out, 12);
}

// A task block, in the first 512 bytes of a buffer.
pub fn fill_task(out: &mut [u8], number: u16, task: Task, figures: &[u32])
    requires { (512 ≤ length out.old) × (task.modes ≤ 16) × (length figures.now ≡ 3 * task.modes) }
    ensures { out.new ≡ task_bytes number task.elasticity task.modes task.permitted figures.now ++ drop 512 out.old }
{
    put_front(
        out,
        2,
        task.elasticity,
        task.modes as u16,
        task.permitted,
        number,
    );
    put_all(out, 8, figures);
    finish(out, 8 + 12 * task.modes as usize);
}
