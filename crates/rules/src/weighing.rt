// What weighing a tree says.
#[derive(Clone, Copy)]
pub enum Weighing<W> {
    // the tree has no state
    NoRun,
    // its state is not accepting
    Ended { state: usize },
    Weighs { state: usize, weight: W },
}
