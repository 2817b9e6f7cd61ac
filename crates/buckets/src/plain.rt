// What the mini-bucket source is made of. The functions of these records stand in the files of their names.
ghost use Rattle.std.specs.Prelude.{◌≡◌, ℕ, ◌≤◌, length, slice_index};
ghost use Rattle.lists.specs.Lists.{items_of};

use floors::plain::Places;
use lists::ShortList;
use problems::records::MessageRecord;
use variables::order::Order;
use variables::sizes::Sizes;

// How many records there are at most: 64 functions and 320 messages.
pub const MOST_RECORDS: usize = 384;

// Records one after the other.
#[derive(Clone, Copy)]
pub struct Records {
    pub(crate) list: ShortList<MessageRecord, MOST_RECORDS>,
}

// Which variables are named, by their numbers.
#[derive(Clone, Copy)]
pub struct Named {
    pub(crate) named: [bool; 32],
    ghost long: { length named ≡ 32 },
}

// One mini-bucket taken from the functions that wait, and those that wait on.
#[derive(Clone, Copy)]
pub struct Parted {
    pub(crate) members: Records,
    pub(crate) rest: Records,
}

// What the split into mini-buckets goes by.
#[derive(Clone, Copy)]
pub struct Plan {
    pub(crate) sizes: Sizes,
    pub(crate) order: Order,
    pub(crate) width: u8,
}

// All records of a job: its functions and then its messages, and how many of them count at a prefix of each length.
#[derive(Clone, Copy)]
pub struct Made {
    pub(crate) records: Records,
    pub(crate) reach: [usize; 33],
    ghost long: { length reach ≡ 33 },
    ghost capped: { (p : ℕ) → slice_index reach p ≤ length (items_of records.list) },
}

// Floors from mini-buckets of at most `width` variables. It keeps its records once it has been filled.
#[derive(Clone, Copy)]
pub struct MiniBucket {
    pub(crate) width: u8,
    pub(crate) entered: usize,
    pub(crate) made: Made,
    pub(crate) buckets: Places<MOST_RECORDS>,
}
