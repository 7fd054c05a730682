// A table that is being written: a shape, and the first rules of a lent memory. It allows accept, add and close.
mod calls;

use rules::{Rule, Shape};

#[derive(Drop)]
pub struct Draft<'a, W> {
    shape: Shape,
    count: usize,
    rules: &'a mut [Rule<W>],
}
