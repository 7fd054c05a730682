// An entry of a tree list: a symbol, and in the first places, as many as its rank, the numbers of its children.
#[derive(Clone, Copy, PartialEq, Eq, Debug)]
pub struct Node {
    pub symbol: usize,
    pub children: [usize; 4],
}
