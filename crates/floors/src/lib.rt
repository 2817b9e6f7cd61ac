// Floors: lower bounds on the cost of every full setting that begins with a prefix.
#![tactic(auto)]

pub mod buckets;
pub mod first_choice;
mod given;
pub mod paid;
pub mod plain;
pub mod source;
