// The text format of weighted constraint problems: its layout, and the job that a text describes.
#![tactic(auto)]

mod domains;
mod entry;
mod heading;
mod listing;
pub mod load;
mod scopes;
mod tables;
mod tuples;
