// The plain record of a table. Its functions stand in the file `records`.
ghost use Rattle.std.specs.Prelude.{◌≤◌};

pub use crate::functions::{FunctionRecord, Functions};
use variables::scope::Scope;

// A function or a message: its scope, the bucket that it came from, and the cell at which its table starts, none past END.
#[derive(Clone, Copy)]
pub struct TableRecord<const END: usize> {
    pub(crate) scope: Scope,
    pub(crate) origin: u8,
    pub(crate) start: usize,
    ghost low: { start ≤ END },
}
