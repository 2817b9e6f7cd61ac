// Mini-buckets: a source of floors that eliminates the variables behind a prefix, a few functions at a time.
#![tactic(auto)]

mod bucket;
mod message;
pub mod mini_bucket;
mod named;
mod parting;
pub mod plain;
mod processing;
mod records;
mod table;
