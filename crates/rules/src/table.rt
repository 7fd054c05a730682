// A table to read: its shape and its rules.
ghost use Rattle.std.specs.Prelude.{◌≡◌, take};

use crate::rule::Rule;
use crate::shape::Shape;

#[derive(Clone, Copy)]
pub struct Table<'a, W> {
    pub shape: &'a Shape,
    pub rules: &'a [Rule<W>],
}

impl<'a, W> Table<'a, W> {
    // The table of the first `count` rules of a memory.
    pub fn of_first(shape: &'a Shape, memory: &'a [Rule<W>], count: usize) -> Table<'a, W>
        ensures shape { result.shape.now ≡ shape.now }
        ensures rules { result.rules.now ≡ take count memory.now }
    {
        Table {
            shape,
            rules: &memory[..count.min(memory.len())],
        }
    }
}
