// The plain pair that a cell of ranked costs holds; pairs are ordered first by first.
#[derive(Clone, Copy, PartialEq, Eq, PartialOrd, Ord, Debug)]
pub struct Pair {
    pub first: u16,
    pub second: u16,
}
