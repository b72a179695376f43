// A table whose numbers were checked: what planning over it may take for granted.
ghost use Rattle.std.specs.Prelude.{◌≡◌, ◌*◌, ◌+◌};
ghost use Rattle.table.specs.inner.Accepted.{Plannable};

use block::Header;

// Its bytes and its header's numbers.
#[derive(Clone, Copy)]
pub struct Checked<'a> {
    pub table: &'a [u8],
    pub header: Header,
    pub ghost plannable: { Plannable table.now header.tasks header.cores header.common },
}

impl<'a> Checked<'a> {
    // The cells that its workspace needs: a row for each task and one more, a column for each number of cores up to its own.
    pub fn cell_count(self) -> usize
        ensures { result ≡ (self.entry.header.tasks + 1) * (self.entry.header.cores + 1) }
    {
        (self.header.tasks as usize + 1) * (self.header.cores as usize + 1)
    }
}
