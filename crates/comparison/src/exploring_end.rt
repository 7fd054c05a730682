// The end of a search: what told the tables apart, if anything did, and how many entries the work list has.
use crate::exploring_outcome::Outcome;

#[derive(Clone, Copy)]
pub struct Exploring {
    pub outcome: Option<Outcome>,
    pub len: usize,
}
