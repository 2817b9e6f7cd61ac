// A function's own part of the area.
ghost use Rattle.std.specs.Prelude.{◌≡◌, ◌<◌, length, replicate, slice_set};
ghost use Rattle.wcsp.specs.Passes.{by_pass};

// A text is read twice by the same code: first to check everything, then to write.
// Not a closure that writes: of what a closure changed, a proof knows nothing after the call that it was passed to.
// Not a struct of table and pass: each contract would then say too that the lent table in it is still the same one.
#[derive(Clone, Copy)]
pub(crate) enum Pass {
    Checking,
    Writing,
}

impl Pass {
    // One cost, in a writing pass.
    pub(crate) fn put(self, table: &mut [u32], cell: usize, cost: u32)
        requires { cell < length table.old }
        ensures { table.new ≡ by_pass self table.old (slice_set table.old cell cost) }
    {
        match self {
            Pass::Checking => {}
            Pass::Writing => table[cell] = cost,
        }
    }

    // The usual cost in every cell, in a writing pass.
    pub(crate) fn begin(self, table: &mut [u32], cost: u32)
        ensures { table.new ≡ by_pass self table.old (replicate (length table.old) cost) }
    {
        match self {
            Pass::Checking => {}
            Pass::Writing => table.fill(cost),
        }
    }
}
