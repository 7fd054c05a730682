// Readings of a document as text: a line that names a reading, and then a line for each of its entries.
ghost use Rattle.orders.specs.Entries.{Made};

use crate::fault::{Fault, Slip};
use crate::symbol::{Symbol, UnknownSymbol};
use std::alloc::Global;
use trees::Node;

// A reading: its name, and its tree as a tree list.
#[derive(Drop)]
pub struct Reading {
    pub name: String,
    pub entries: Vec<Node>,
}

// A line of the text, without its comment.
#[derive(Clone, Copy)]
struct Source<'a> {
    number: usize,
    text: &'a str,
}

impl<'a> Source<'a> {
    fn new(number: usize, line: &'a str) -> Source<'a> {
        let text = line.split_once('#').map_or(line, |(before, _)| before);
        Source { number, text }
    }

    fn fault(self, slip: Slip) -> Fault {
        Fault::Line {
            number: self.number,
            slip,
        }
    }

    // The numbers behind the first word.
    fn children(self, heap: Global) -> Result<Vec<usize>, Fault> {
        self.text
            .split_whitespace()
            .skip(1)
            .map(|word| word.parse().map_err(|_| self.fault(Slip::Number)))
            .try_collect(heap)
    }

    // The entry that the line gives, which begins with this word.
    fn node(self, heap: Global, word: &str) -> Result<Node, Fault> {
        let symbol = symbol_of(word).map_err(|_| self.fault(Slip::Symbol))?;
        let children = self.children(heap)?;
        let rank = symbol.rank();
        let given = children.len();
        entry(symbol, children.as_slice()).ok_or_else(|| self.fault(Slip::Children { rank, given }))
    }

    // The name of the reading that the line begins.
    fn name(self, heap: Global) -> Result<String, Fault> {
        let mut words = self.text.split_whitespace().skip(1);
        match (words.next(), words.next()) {
            (Some(name), None) => Ok(String::from_str(heap, name)?),
            _ => Err(self.fault(Slip::Name)),
        }
    }
}

// The entry of a symbol over the entries with these numbers.
fn entry(symbol: Symbol, children: &[usize]) -> Option<Node>
    ensures { Made symbol children.now result }
{
    let rank = symbol.rank();
    if children.len() != rank {
        return None;
    }
    let mut places = [0; 4];
    places[..rank].copy_from_slice(children);
    Some(Node {
        symbol: usize::from(symbol),
        children: places,
    })
}

// The symbol that a word gives, by its name or its number.
fn symbol_of(word: &str) -> Result<Symbol, UnknownSymbol> {
    match word.parse::<usize>() {
        Ok(number) => Symbol::try_from(number),
        Err(_) => word.parse(),
    }
}

// Goes on by one line: nothing, a new reading, or an entry of the last reading.
fn take_line(heap: Global, readings: &mut Vec<Reading>, line: Source<'_>) -> Result<(), Fault> {
    let Some(word) = line.text.split_whitespace().next() else {
        return Ok(());
    };
    if word == "reading" {
        readings.push(Reading {
            name: line.name(heap)?,
            entries: Vec::new(heap),
        })?;
        return Ok(());
    }
    let node = line.node(heap, word)?;
    let Some(last) = readings.last_mut() else {
        return Err(line.fault(Slip::Early));
    };
    last.entries.push(node)?;
    Ok(())
}

// The readings of a text, in order.
pub fn parse(heap: Global, text: &str) -> Result<Vec<Reading>, Fault> {
    let mut readings = Vec::new(heap);
    for (number, line) in (1..).zip(text.lines()) {
        take_line(heap, &mut readings, Source::new(number, line))?;
    }
    Ok(readings)
}
