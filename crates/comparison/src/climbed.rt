// The entry whose tree ends in an accepting state, and the number of entries.
#[derive(Clone, Copy)]
pub struct Climbed {
    pub top: usize,
    pub len: usize,
}
