// A line that was read, and where the next one begins.
use crate::line::Line;

#[derive(Clone, Copy, Debug, PartialEq, Eq)]
pub struct Reading<'a> {
    pub line: Line<'a>,
    pub next: usize,
}
