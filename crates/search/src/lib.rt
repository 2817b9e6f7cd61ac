// Branch and bound, written once for every cost structure and every source of floors.
#![tactic(auto)]

pub mod place;
mod plain;
pub mod run;
pub mod theorems;
mod visit;
