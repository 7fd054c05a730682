// What factors are chosen by: a table with its live states, and the pairs of them that are told apart.
use crate::live_table::LiveTable;
use pairs::PairTable;

#[derive(Clone, Copy)]
pub(crate) struct Chooser<'a, W> {
    pub(crate) live: &'a LiveTable<'a, W>,
    pub(crate) marks: &'a PairTable<bool>,
}
