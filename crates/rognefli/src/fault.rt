// What can end the program early.
use std::alloc::AllocError;
use std::io;
use thiserror::Error;

#[derive(Debug, Drop, Error)]
pub enum Fault {
    #[error("no memory")]
    Memory(#[from] AllocError),
    #[error("standard input or output: {0}")]
    Io(#[from] io::Error),
}
