// What a search goes by: two tables with their live states, entries of a work list, and the entry of each known pair of states.
use crate::scan_tables::LiveTables;
use pairs::PairTable;
use rules::Place;

#[derive(Clone, Copy)]
pub struct Scan<'a, W> {
    pub live: LiveTables<'a, W>,
    pub work: &'a [Place<W>],
    pub pairs: &'a PairTable<Option<usize>>,
}
