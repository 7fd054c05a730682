// The run of a tree: the state that it ends in, and its run weight.
#[derive(Clone, Copy)]
pub struct Run<W> {
    pub state: usize,
    pub weight: W,
}
