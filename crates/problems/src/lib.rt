// Problems as plain records: function records over variables, a job's shape, and what a setting costs.
#![tactic(auto)]

pub mod costing;
mod drafting;
pub mod functions;
pub mod plain;
pub mod records;
pub mod shape;
