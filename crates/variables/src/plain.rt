// The plain records of variables. Their functions stand in the files of their names.
ghost use Rattle.std.specs.Prelude.{◌≡◌, ℕ, ◌<◌, ◌≤◌, true, length, take, slice_index};
ghost use Rattle.lists.specs.Lists.{items_of};
ghost use Rattle.variables.specs.Lists.{distinct};

use lists::ShortList;

// Domain sizes by variable number; past the last variable they are 0.
// Not a ShortList: every cost of a function reads the sizes without a test, past the last one too.
#[derive(Clone, Copy)]
pub struct Sizes {
    pub(crate) sizes: [u8; 32],
    pub(crate) len: usize,
    ghost few: { len ≤ 32 },
    ghost small: { (v : ℕ) → slice_index sizes v ≤ 16 },
    ghost some: { (v : ℕ) → v < len → 0 < slice_index sizes v },
    ghost rest: { (v : ℕ) → len ≤ v → slice_index sizes v ≡ 0 },
}

// The variables along an order, none of them twice.
#[derive(Clone, Copy)]
pub struct Order {
    pub(crate) variables: ShortList<u8, 32>,
    ghost within: { (p : ℕ) → slice_index (items_of variables) p < 32 },
    ghost apart: { distinct (items_of variables) ≡ true },
}

// A value for each variable, by its number; one that was not given is 0.
#[derive(Clone, Copy)]
pub struct Setting {
    pub(crate) values: [u8; 32],
    ghost long: { length values ≡ 32 },
}

// Why a list of values is no full setting.
#[derive(Clone, Copy, PartialEq, Eq, Debug)]
pub enum Misfit {
    // There is not one value for each variable.
    Length,
    // This variable has no such value.
    Value(usize),
}

// Values of the first variables of an order, kept by variable number.
#[derive(Clone, Copy)]
pub struct Prefix {
    pub(crate) setting: Setting,
    pub(crate) len: usize,
    ghost few: { len ≤ 32 },
}

// The variables that a function reads, none of them twice.
// Not a ShortList: with its length in one byte the record of a function takes 16 bytes, and all records are copied with each call.
#[derive(Clone, Copy)]
pub struct Scope {
    pub(crate) len: u8,
    pub(crate) variables: [u8; 5],
    ghost few: { len ≤ 5 },
    ghost within: { (k : ℕ) → slice_index variables k < 32 },
    ghost apart: { distinct (take len variables) ≡ true },
}
