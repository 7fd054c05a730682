// Making a work list.
use crate::work::Work;
use kinds::Kind;
use rules::Place;
use std::alloc::{AllocError, Global};

// The places that a comparison of two tables can need: each has at most 48 states.
pub const PLACES: usize = 4802;

impl<W: Kind> Work<W> {
    pub fn new(heap: Global) -> Result<Work<W>, AllocError> {
        let places = vec![in heap; Place::blank(); PLACES]?;
        Ok(Work { places })
    }
}
