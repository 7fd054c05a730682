//! Comparing two tables.
#![tactic(auto)]

mod access;
mod accessing;
mod alphabets;
mod climbed;
mod climbing;
mod comparing;
mod comparison;
mod differing;
mod exploring;
mod exploring_cursor;
mod exploring_end;
mod exploring_outcome;
mod exploring_taking;
mod marking;
mod planting;
mod scan;
mod scan_finding;
mod scan_judging;
mod scan_resting;
mod scan_sides;
mod scan_tables;
mod scan_tuples;
mod scan_verdict;
mod scanning;
mod sides;
mod soundness;
mod survey;
mod surveying;
mod two_tables;
mod witnesses;
mod writing;

pub use comparing::compare;
pub use comparison::Comparison;
