//! An index over the rules of a table, for looking up a rule by its left side.
#![tactic(auto)]

mod hashing;
mod rule_index;

pub use rule_index::RuleIndex;
