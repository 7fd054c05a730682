// What a round of calls shows.
use comparison::Comparison;
use kinds::Residue;
use rules::Weighing;

#[derive(Clone, Copy)]
pub struct Shown {
    // what is said of a tree after the first table was pushed and reduced
    pub weighing: Weighing<Residue>,
    // its numbers of states before and after the reduction
    pub states: (usize, usize),
    // whether the two tables weigh alike
    pub comparison: Comparison,
}
