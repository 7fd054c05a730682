//! Drafts and closed tables, and their calls.
#![tactic(auto)]

mod closed;
mod draft;

pub use closed::Closed;
pub use draft::Draft;
