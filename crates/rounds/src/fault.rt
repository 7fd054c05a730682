// What can end the program early.
use std::alloc::AllocError;
use std::io;
use thiserror::Error;
use trees::Refusal;

#[derive(Debug, Drop, Error)]
pub enum Fault {
    #[error("no memory")]
    Memory(#[from(alloc)] AllocError),
    #[error("standard output or the clock: {0}")]
    Output(#[from] io::Error),
    #[error("a call of a table is refused ({})", .0.number())]
    Table(#[from] Refusal),
}
