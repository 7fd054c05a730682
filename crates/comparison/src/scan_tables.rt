// Two tables, with the live states of each, to be searched side by side.
use crate::two_tables::TwoTables;
use liveness::Life;

#[derive(Clone, Copy)]
pub struct LiveTables<'a, W> {
    pub tables: TwoTables<'a, W>,
    pub first_life: &'a Life,
    pub second_life: &'a Life,
}
