//! Tests of the table calls at their limits and at known values, and what the tests share.
#![tactic(auto)]

ghost use Rattle.std.specs.Prelude.{◌≡◌, ◌+◌, [], ◌∷◌, IfOk, vec_len};

use kinds::Kind;
use std::alloc::{AllocError, Global};
use std::iter;
use tables::Draft;
use trees::{Node, Refusal};

mod answers;
#[cfg(test)]
mod drawing;
#[cfg(test)]
mod lines;
#[cfg(test)]
mod places;
#[cfg(test)]
mod tests;
#[cfg(test)]
mod witnesses;

pub use answers::{Answer, answer_of, numbered};

// The rules 0 → 0 / leaf and 1(0, 0) → 0 / fork, with state 0 accepting.
pub fn forks<W: Kind>(draft: &mut Draft<'_, W>, leaf: W, fork: W) -> Result<(), Refusal> {
    draft.accept(0)?;
    draft.add(0, &[], 0, leaf)?;
    draft.add(1, &[0, 0], 0, fork)
}

pub fn node(symbol: usize, children: [usize; 4]) -> Node
    ensures { result ≡ record { symbol = symbol; children = children } }
{
    Node { symbol, children }
}

pub fn leaf(symbol: usize) -> Node
    ensures { result ≡ record { symbol = symbol; children = 0 ∷ 0 ∷ 0 ∷ 0 ∷ [] } }
{
    node(symbol, [0; 4])
}

pub fn over(symbol: usize, child: usize) -> Node
    ensures { result ≡ record { symbol = symbol; children = child ∷ 0 ∷ 0 ∷ 0 ∷ [] } }
{
    node(symbol, [child, 0, 0, 0])
}

pub fn fork(symbol: usize, left: usize, right: usize) -> Node
    ensures { result ≡ record { symbol = symbol; children = left ∷ right ∷ 0 ∷ 0 ∷ [] } }
{
    node(symbol, [left, right, 0, 0])
}

// A leaf 0, and then an entry over each entry before it, which is given by the number of that one.
pub fn stack<F: FnMut(usize) -> Node>(
    heap: Global,
    height: usize,
    entry: F,
) -> Result<Vec<Node>, AllocError>
    requires { (state : F) (k : _) → F.pre state k }
    ensures { IfOk result (λ v. vec_len v ≡ height + 1) }
{
    iter::once(leaf(0))
        .chain((0..height).map(entry))
        .collect(heap)
}

// Entries 1(k, k) over a leaf 0, each over the entry before it twice: a full tree of that height.
pub fn doubling(heap: Global, height: usize) -> Result<Vec<Node>, AllocError>
    ensures { IfOk result (λ v. vec_len v ≡ height + 1) }
{
    stack(heap, height, |k| fork(1, k, k))
}
