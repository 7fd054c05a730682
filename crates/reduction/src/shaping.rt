// The shape of a merged table.
ghost use Rattle.std.specs.Prelude.{◌≡◌, ℕ, ◌<◌, ◌≤◌, false, slice_index_or};
ghost use Rattle.rules.specs.Shapes.{ranks_in, states_in, accepts_in};
ghost use Rattle.reduction.specs.Acceptance.{accepts_as, class_accepts};

use crate::classes::Classes;
use rules::Shape;
use std::array;

// Whether a state is of the class and accepts.
fn is_accepted_as(shape: &Shape, classes: &Classes, class: usize, state: usize) -> bool
    ensures { result ≡ accepts_as shape.now classes.now class state }
{
    classes.class(state).is_some_and(|own| usize::from(own) == class && shape.is_accepting(state))
}

// Whether a state of the class accepts.
fn is_accepting_class(shape: &Shape, classes: &Classes, class: usize) -> bool
    ensures { result ≡ class_accepts shape.now classes.now class }
{
    (0..shape.states()).any(|q| is_accepted_as(shape, classes, class, q))
}

// A mark for each class that accepts.
fn class_marks(shape: &Shape, classes: &Classes) -> [bool; 48]
    ensures marks { (c : ℕ) → c < 48 → slice_index_or result c false ≡ class_accepts shape.now classes.now c }
    ensures past { (c : ℕ) → 48 ≤ c → slice_index_or result c false ≡ false }
{
    array::from_fn(|class| is_accepting_class(shape, classes, class))
}

// The shape after a merge: the states are the classes, and a class accepts if a state of it does.
pub fn merged_shape(shape: &Shape, classes: &Classes) -> Shape
    ensures ranks { ranks_in result ≡ ranks_in shape.now }
    ensures states { states_in result ≡ classes.now.count }
    ensures marks { (c : ℕ) → c < 48 → accepts_in result c ≡ class_accepts shape.now classes.now c }
    ensures past { (c : ℕ) → 48 ≤ c → accepts_in result c ≡ false }
{
    shape.regrouped(classes.count, class_marks(shape, classes))
}
