// What can end the program early.
use crate::choice::Which;
use std::alloc::AllocError;
use std::{fmt, io};
use thiserror::Error;
use trees::Refusal;

// What is wrong with a line of the input.
#[derive(Clone, Copy, PartialEq, Eq, Debug, Error)]
pub enum Slip {
    #[error("a reading has a name of one word")]
    Name,
    #[error("an entry before the first reading")]
    Early,
    #[error("no symbol of this name or number")]
    Symbol,
    #[error("a child that is not the number of an entry")]
    Number,
    // not as many children as the symbol's rank
    #[error("children given: {given}, and the rank is {rank}")]
    Children { rank: usize, given: usize },
}

#[derive(Debug, Drop, Error)]
pub enum Fault {
    #[error("no memory")]
    Memory(#[from(alloc)] AllocError),
    #[error("standard input or output: {0}")]
    Input(#[from] io::Error),
    #[error("line {number}: {slip}")]
    Line { number: usize, slip: Slip },
    #[error("readings given: {0}, in place of 2")]
    Readings(usize),
    // a call that builds the table is refused
    #[error("the table is refused ({})", .0.number())]
    Table(#[from] Refusal),
    #[error("a rule was taken twice")]
    Repeated,
    #[error("the {0} reading {1}")]
    Reading(Which, Unweighed),
}

// Why a reading is not weighed.
#[derive(Clone, Copy, Debug)]
pub struct Unweighed(pub Refusal);

impl fmt::Display for Unweighed {
    fn fmt<W: fmt::Write>(&self, f: &mut fmt::Formatter<W>) -> fmt::Result {
        let number = self.0.number();
        match self.0 {
            Refusal::TreeList(entry) => {
                write!(f, "is not a tree list, by its entry {entry} ({number})")
            }
            _ => write!(f, "is refused ({number})"),
        }
    }
}
