// A number below 1024 for each left side.
ghost use Rattle.std.specs.Prelude.{◌≡◌};
ghost use Rattle.lookup_index.specs.Hashing.{mixed, hash_of, left_hash};
ghost use Rattle.rules.specs.Shapes.{ranks_in};

use rules::{LeftSide, Shape};

// The hash of a row with one number more.
fn mix(hash: usize, number: usize) -> usize
    ensures { result ≡ mixed hash number }
{
    (hash % 1024 * 49 + number % 1024) % 1024
}

// The hash of the left side `symbol(children)`.
pub fn hash(symbol: usize, children: &[usize]) -> usize
    ensures { result ≡ hash_of symbol children.now }
{
    children
        .iter()
        .fold(mix(0, symbol), |hash, state| mix(hash, *state))
}

// The hash of a rule's left side.
pub fn rule_hash(shape: &Shape, left: &LeftSide) -> usize
    ensures { result ≡ left_hash (ranks_in shape.now) left.now }
{
    shape
        .children(left)
        .iter()
        .fold(mix(0, usize::from(left.symbol)), |hash, state| {
            mix(hash, usize::from(*state))
        })
}
