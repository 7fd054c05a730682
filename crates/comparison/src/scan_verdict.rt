// What a node over entries with known pairs of states adds to them.
use rules::Side;

#[derive(Clone, Copy)]
pub enum Verdict {
    // its states are a pair of live states that is not known yet
    NewPair,
    // it has a live state on this side only
    Lone { side: Side },
    // its states are the known pair of the other entry, with another ratio of the run weights
    Uneven { other: usize },
}
