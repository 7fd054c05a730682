//! Pages: two tables in one text, and the answer to it.
#![tactic(auto)]

mod answering;
mod at;
mod cursor;
mod entering;
mod fault;
mod filling;
mod judging;
mod laws;
mod measuring;
mod named;
mod starting;
mod table_pair;
mod trouble;
mod weights;
mod work;
mod writing;

pub use answering::answer;
pub use fault::Fault;
pub use laws::reading_is_unique;

#[cfg(test)]
mod tests;
