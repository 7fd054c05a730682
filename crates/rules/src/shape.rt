// The shape of a table: its measure, and a mark for each accepting state.
mod calls;

use crate::measure::Measure;

#[derive(Clone, Copy)]
pub struct Shape {
    measure: Measure,
    accepting: [bool; 48],
}
