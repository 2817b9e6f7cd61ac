// What the program prints, byte by byte: lines, and the pages that are made of them.
#![tactic(auto)]

pub mod asked;
pub mod lines;
pub mod messages;
pub mod pricing;
pub mod refused;
