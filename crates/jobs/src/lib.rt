// A job: one problem on its way from draft to verdict, in memory that is lent to each call.
#![tactic(auto)]

mod amend;
pub mod answer;
mod cells;
mod close;
mod enter;
pub mod job;
mod load;
mod open;
mod plain;
mod prepare;
mod reopen;
mod report;
pub mod stage;
mod step;
