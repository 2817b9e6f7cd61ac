// Variables as plain records: domain sizes, an order, settings, prefixes and scopes, and why a call is refused.
#![tactic(auto)]

pub mod listing;
pub mod order;
pub mod plain;
pub mod prefix;
pub mod refusal;
pub mod scope;
pub mod setting;
pub mod sizes;
