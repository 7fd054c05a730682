// The shape and the number of rules of a reduced table.
use rules::Shape;

#[derive(Clone, Copy)]
pub struct Reduced {
    pub shape: Shape,
    pub count: usize,
}
