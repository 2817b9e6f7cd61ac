// Calls with what they bring, and their answers.
ghost use Rattle.std.specs.Prelude.{◌≤◌};

use jobs::answer::{Report, Stepped};
use variables::refusal::Refusal;

// A part of the lent cells or bytes: so many from a start.
#[derive(Clone, Copy)]
pub struct Part {
    pub start: usize,
    pub len: usize,
}

// A call, with the part of the cells that it brings as its area.
#[derive(Drop)]
pub enum Call<C> {
    Open {
        sizes: Vec<u8>,
        area: Part,
    },
    Enter {
        scope: Vec<u8>,
        cost: C,
        area: Part,
    },
    Amend {
        function: usize,
        tuple: Vec<u8>,
        cost: C,
        area: Part,
    },
    Prepare {
        order: Vec<u8>,
        limit: C,
        area: Part,
    },
    Step {
        budget: u32,
        area: Part,
    },
    Report {
        buffer: Part,
        area: Part,
    },
    Reopen,
    Close,
}

// What a report's buffer holds after it, by variable number.
// Not a ShortList: the buffer is copied at once, and not value by value.
#[derive(Clone, Copy)]
pub struct Shown {
    pub(crate) values: [u8; 32],
    pub(crate) len: usize,
    ghost few: { len ≤ 32 },
}

// What a call answered.
#[derive(Clone, Copy)]
pub enum Answer<C> {
    Done,
    Entered(usize),
    Stepped(Stepped),
    Reported(Report<C>, Shown),
    Refused(Refusal),
}
