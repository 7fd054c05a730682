// A rule of a table, over the weights of one kind.
use crate::left_side::LeftSide;

#[derive(Clone, Copy)]
pub struct Rule<W> {
    pub left: LeftSide,
    pub target: u8,
    pub weight: W,
}
