// Lists whose elements show whether a call has written them.
use crate::leaf;
use kinds::Residue;
use rules::Place;
use trees::Node;

// A symbol that is in no alphabet.
pub const NO_SYMBOL: usize = 77;

// An entry that no call leaves behind.
pub fn untouched() -> Node {
    leaf(NO_SYMBOL)
}

// How many entries are as they were.
pub fn count_untouched(list: &[Node]) -> usize {
    list.iter().filter(|node| node.symbol == NO_SYMBOL).count()
}

// A place that no call leaves behind.
pub fn marked() -> Place<Residue> {
    Place {
        node: untouched(),
        first: None,
        second: None,
        mark: Some(NO_SYMBOL),
    }
}

// How many places are as they were.
pub fn count_marked(work: &[Place<Residue>]) -> usize {
    work.iter()
        .filter(|place| place.node.symbol == NO_SYMBOL && place.mark == Some(NO_SYMBOL))
        .count()
}

// The first elements of a list, so many if there are as many.
pub fn cut<T>(list: &mut [T], len: usize) -> &mut [T] {
    let len = len.min(list.len());
    &mut list[..len]
}
