//! Reduction of a table, on plain slices of rules.
#![tactic(auto)]

mod acceptance;
mod analysing;
mod chooser;
mod choosing;
mod classes;
mod comparing;
mod comparison;
mod factors;
mod live_table;
mod lone;
mod marking;
mod merging;
mod numbering;
mod reduced;
mod reducing;
mod shaping;

pub use analysing::analyse;
pub use classes::Classes;
pub use merging::merge_rules;
pub use reduced::Reduced;
pub use reducing::reduce;
pub use shaping::merged_shape;
