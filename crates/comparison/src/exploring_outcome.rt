// How two tables were told apart by a search through the pairs of states that one tree has in both. Entries are those of the work list.
use rules::Side;

#[derive(Clone, Copy)]
pub enum Outcome {
    // the tables weigh the tree of the entry differently
    Differs { entry: usize },
    // the tree of the entry has a live state on this side only
    Lone { side: Side, entry: usize },
    // the trees of the two entries have one pair of states, with two ratios of the run weights
    Uneven { entry: usize, other: usize },
}
