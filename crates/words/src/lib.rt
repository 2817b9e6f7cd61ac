// Texts word by word: words, the numbers that they spell, and what is wrong with a text.
#![tactic(auto)]

pub mod fault;
pub mod number;
mod plain;
pub mod reader;
mod run;
