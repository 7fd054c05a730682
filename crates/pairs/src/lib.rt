//! Tables with a cell for each pair of states.
#![tactic(auto)]

mod blank;
mod pair_table;

pub use blank::Blank;
pub use pair_table::PairTable;
