// Scripts carried out: the calls that the lines ask for, and a line for each answer.
#![tactic(auto)]

mod calls;
mod lending;
mod lines;
pub mod page;
