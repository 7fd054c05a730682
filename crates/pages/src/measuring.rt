// The first line of a table.
ghost use Rattle.std.specs.Prelude.{◌≡◌};
ghost use Rattle.pages.specs.Reading.{Measures, MeasuresNext};

use crate::at::at_line;
use crate::cursor::Cursor;
use crate::fault::Fault;
use crate::trouble::Trouble;
use layout::{Line, read_numbers};
use rules::Measure;
use std::alloc::Global;

fn measured(line: usize, ranks: &[usize], states: usize) -> Result<Measure, Trouble>
    ensures { Measures ranks.now states line result }
{
    let mut measure = Measure::fresh();
    at_line(line, measure.measure(ranks, states))?;
    Ok(measure)
}

// The alphabet and the number of states of the table that begins in the next line.
pub fn read_measure(heap: Global, cursor: &mut Cursor) -> Result<Measure, Trouble>
    ensures read { MeasuresNext cursor.old.page.now cursor.old cursor.new result }
    ensures page { cursor.new.page.now ≡ cursor.old.page.now }
{
    let line = cursor.line();
    let Line::Table { states, ranks } = cursor.next_line()? else {
        return Err(Trouble::Fault(Fault::Layout { line }));
    };
    let ranks = read_numbers(heap, ranks)?;
    measured(line, &ranks, states)
}
