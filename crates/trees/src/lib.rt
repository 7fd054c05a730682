//! Alphabets, and trees as lists of nodes.
#![tactic(auto)]

mod alphabet;
mod checks;
mod node;
mod refusal;

pub use alphabet::Alphabet;
pub use checks::check_list;
pub use node::Node;
pub use refusal::Refusal;
