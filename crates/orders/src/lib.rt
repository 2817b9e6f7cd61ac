// Orders of a job's variables: as they are numbered, and by elimination.
#![tactic(auto)]

mod cliques;
mod elimination;
pub mod min_fill;
pub mod natural;
