//! The layout of a page: the bytes of its fields and lines.
#![tactic(auto)]

mod fields;
mod line;
mod lines;
mod reading;

pub use fields::{read_code, read_number, read_numbers, write_field, write_line, write_weight};
pub use line::Line;
pub use lines::line_at;
pub use reading::Reading;

#[cfg(test)]
mod tests;
