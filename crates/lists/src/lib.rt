// Lists in fixed memory.
#![tactic(auto)]

mod filling;
mod plain;

pub use plain::{Full, ShortList};
