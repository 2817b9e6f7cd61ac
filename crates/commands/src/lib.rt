// The program's commands: the command line, what it asks for, and what stops it.
#![tactic(auto)]

mod command;
mod files;
mod options;
mod performing;
mod stop;

pub use performing::{perform, run};
