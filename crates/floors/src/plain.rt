// What the sources keep beside their cells.
ghost use Rattle.std.specs.Prelude.{◌≡◌, length};

use problems::functions::MOST_FUNCTIONS;
use variables::sizes::MOST_VARIABLES;

// A place along the order for each of N numbers, 0 where there is none: by variables their places, by functions (or messages) their buckets, the places of their latest variables.
#[derive(Clone, Copy)]
pub struct Places<const N: usize> {
    pub(crate) places: [u8; N],
    ghost long: { length places ≡ N },
}

// Floors from the functions whose scope lies in the prefix. It knows the functions' buckets once it has been filled.
#[derive(Clone, Copy)]
pub struct Paid {
    pub(crate) buckets: Places<MOST_FUNCTIONS>,
}

// Floors from every function's least cost that agrees with the prefix. It knows the variables' places once it has been filled.
#[derive(Clone, Copy)]
pub struct FirstChoice {
    pub(crate) places: Places<MOST_VARIABLES>,
}

// The variables that a prefix gives: those whose place is at most its length.
#[derive(Clone, Copy)]
pub struct Given {
    pub(crate) places: Places<MOST_VARIABLES>,
    pub(crate) len: usize,
}
