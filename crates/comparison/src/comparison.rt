// What comparing two tables answers.
#[derive(Clone, Copy, PartialEq, Eq, Debug)]
pub enum Comparison {
    // every tree weighs alike in both
    Same,
    // the first `entries` entries of the tree list tell a tree that weighs differently
    Different { entries: usize },
}
