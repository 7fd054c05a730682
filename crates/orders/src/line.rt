// A rule of the table as it is written down: a symbol over states, a target and a cost.
ghost use Rattle.std.specs.Prelude.{◌≤◌, length};

use crate::state::State;
use crate::symbol::Symbol;

#[derive(Clone, Copy)]
pub struct Line {
    pub symbol: Symbol,
    pub children: &'static [State],
    pub target: State,
    pub cost: i32,
    ghost few: { length children.now ≤ 4 },
}
