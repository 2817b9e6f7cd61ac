// A list of calls, carried out one after the other.
#![tactic(auto)]

mod answers;
pub mod calls;
mod parts;
mod play;
mod shown;
pub mod theorems;

pub use play::replay;
