// For each state that is reached, an entry of the work list whose tree has it, and the number of entries.
#[derive(Clone, Copy)]
pub struct Access {
    pub entry: [usize; 48],
    pub len: usize,
}
