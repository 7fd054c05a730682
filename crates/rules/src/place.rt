// A place of a work list: a node, its runs in up to two tables, and a number if it has one. What it holds means nothing between calls.
ghost use Rattle.std.specs.Prelude.{◌≡◌};
ghost use Rattle.rules.specs.Running.{side_run};

use crate::run::Run;
use crate::side::Side;
use trees::Node;

#[derive(Clone, Copy)]
pub struct Place<W> {
    pub node: Node,
    pub first: Option<Run<W>>,
    pub second: Option<Run<W>>,
    pub mark: Option<usize>,
}

impl<W: Copy> Place<W> {
    // The run for one side.
    pub fn run(&self, side: Side) -> Option<Run<W>>
        ensures { result ≡ side_run side self.now }
    {
        match side {
            Side::First => self.first,
            Side::Second => self.second,
        }
    }
}
