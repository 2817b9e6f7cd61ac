// Sources of floors as another crate writes them against the trait.
#![tactic(auto)]

pub mod greater;
pub mod neutral;
pub mod plain;
#[cfg(test)]
mod tests;
