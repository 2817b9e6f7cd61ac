// The job's own record, and its source of floors beside it.
ghost use Rattle.std.specs.Prelude.{◌≡◌, ◌≤◌, true, ◌||◌, nat_le};
ghost use Rattle.problems.specs.Outlines.{outline};
ghost use Rattle.search.specs.Places.{spot_of};
ghost use Rattle.jobs.specs.Stages.{is_closed};
ghost use Rattle.jobs.specs.Invariants.{sound};

use crate::stage::Stage;
use problems::shape::Shape;
use search::place::Place;
use std::marker::PhantomData;

// Everything that a job knows but its cells, which are lent to each call.
#[derive(Clone, Copy)]
pub struct Plain {
    pub(crate) stage: Stage,
    pub(crate) shape: Shape,
    pub(crate) noted: usize,
    pub(crate) place: Place,
    pub(crate) visits: u32,
    ghost inside: { (is_closed stage || nat_le (outline shape).used noted) ≡ true },
    ghost sound: { sound stage (outline shape) noted (spot_of shape.order place) ≡ true },
    ghost few: { noted ≤ 16384 },
    ghost shown: { visits ≤ 4294967295 },
}

// A job over costs C, with the one source of floors that it was made with.
#[derive(Drop)]
pub struct Job<C, S> {
    pub(crate) plain: Plain,
    pub(crate) source: S,
    pub(crate) costs: PhantomData<C>,
}

// No source of floors, for a job that never asks for one.
#[derive(Drop)]
pub struct NoFloors;
