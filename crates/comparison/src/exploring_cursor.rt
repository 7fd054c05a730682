// A place among the rules of two tables, those of the first before those of the second, and how many entries there were when the pass began, and
// when the pass before it began, if there was one.
#[derive(Clone, Copy)]
pub struct Cursor {
    pub first: usize,
    pub second: usize,
    pub start: usize,
    pub since: Option<usize>,
}
