// Scripts of calls as texts: three heading lines, then a call on each line.
#![tactic(auto)]

mod calls;
pub mod costs_written;
pub mod flaw;
mod heading;
mod lines;
mod numbers;
pub mod script;
pub mod written;
