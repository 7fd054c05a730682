//! Kinds of weight: the trait with its laws, and the three kinds that pages name.
#![tactic(auto)]

mod cost;
mod kind;
mod marks;
mod refusal;
mod residue;

pub use cost::Cost;
pub use kind::Kind;
pub use marks::Marks;
pub use refusal::KindRefusal;
pub use residue::Residue;

#[cfg(test)]
mod tests;
