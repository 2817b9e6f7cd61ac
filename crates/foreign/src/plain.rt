// What these sources are made of.

// A source that promises nothing: every floor is neutral.
#[derive(Clone, Copy)]
pub struct Neutral {}

// Two sources for the same costs, of which the greater floor counts.
#[derive(Drop)]
pub struct Greater<A, B> {
    pub first: A,
    pub second: B,
}
