// Flags of states.
ghost use Rattle.std.specs.Prelude.{◌≡◌, false, get_or, slice_index_or};
ghost use Rattle.automata.specs.Merging.{all_in};
ghost use Rattle.rules.specs.Shapes.{children_in};

use rules::{LeftSide, Shape};

// Whether a state has a flag; none past the last has.
pub fn is_set(flags: &[bool; 48], state: usize) -> bool
    ensures { result ≡ slice_index_or flags.now state false }
{
    flags.get(state).copied().unwrap_or(false)
}

// Whether all children of a left side have a flag.
pub fn all_set(flags: &[bool; 48], shape: &Shape, left: &LeftSide) -> bool
    ensures { result ≡ all_in (λ q. get_or flags.now q false) (children_in shape.now left.now) }
{
    shape
        .children(left)
        .iter()
        .all(|state| is_set(flags, usize::from(*state)))
}
