// How rules are compared in a round of marking: a table with its live states, and the work list with the factors, if the round compares weights.
use crate::live_table::LiveTable;
use rules::Place;

#[derive(Clone, Copy)]
pub(crate) struct Comparison<'a, W> {
    pub(crate) live: &'a LiveTable<'a, W>,
    pub(crate) factors: Option<&'a [Place<W>]>,
}
