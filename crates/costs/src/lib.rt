// Cost structures: what a cost is, and the three that are built.
#![tactic(auto)]

mod cost;
mod pair;
mod ranked;
mod sum;
mod worst;

pub use cost::Cost;
pub use pair::Pair;
