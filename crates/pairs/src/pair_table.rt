// A value for each pair of states below 48. A pair with a state past the last has the blank of the type.
mod calls;

ghost use Rattle.std.specs.Prelude.{◌≡◌, ⊤};

use crate::blank::Blank;
use std::alloc::AllocError;
use std::marker::Model;

#[derive(Copy)]
pub struct PairTable<T: Blank> {
    cells: [[T; 48]; 48],
}

impl<T: Blank> Model for PairTable<T> {
    ghost use Rattle.pairs.specs.Grid.{Grid};

    ghost Value = { Grid T };

    ghost view = { λ t. record { blank = T.blank; cells = t.cells } };

    ghost inverse = { λ g. record { cells = g.cells } };
}

// The same cells.
impl<T: Blank> Clone for PairTable<T> {
    ghost is_clone = { λ x y. y ≡ x };

    ghost is_infallible = { λ _. ⊤ };

    fn clone(&self) -> Result<PairTable<T>, AllocError> {
        Ok(*self)
    }
}
