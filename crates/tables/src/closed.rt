// A table that is complete. It can be weighed with; it takes no rules.
mod calls;

ghost use Rattle.std.specs.Prelude.{◌≡◌};

use rules::{Rule, Shape};

#[derive(Drop)]
pub struct Closed<'a, W> {
    shape: Shape,
    count: usize,
    rules: &'a mut [Rule<W>],
}

impl<'a, W> Closed<'a, W> {
    // Only a draft that is closed becomes one.
    pub(crate) fn of_parts(shape: Shape, count: usize, rules: &'a mut [Rule<W>]) -> Closed<'a, W>
        ensures shape { result.shape ≡ shape }
        ensures count { result.count ≡ count }
        ensures memory { result.rules.now ≡ rules.old }
    {
        Closed {
            shape,
            count,
            rules,
        }
    }
}
