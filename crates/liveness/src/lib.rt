//! The reachable and the live states of a table: which they are, how each is reached, and how each is led on to acceptance.
#![tactic(auto)]

mod downward;
mod flags;
mod found;
mod life;
mod reach;
mod upward;

pub use downward::find_live;
pub use flags::{all_set, is_set};
pub use found::Found;
pub use life::{Lead, Life};
pub use reach::Reach;
pub use upward::find_reached;
