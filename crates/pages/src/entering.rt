// Lines of a table, let into a draft or refused.
ghost use Rattle.layout.specs.Lines.{accept, rule};
ghost use Rattle.tables.specs.Images.{draft_holds};
ghost use Rattle.pages.specs.Reading.{Entered, EnteredLine};

use crate::at::at_line;
use crate::fault::Fault;
use crate::trouble::Trouble;
use crate::weights::read_weight;
use kinds::Kind;
use layout::{Line, read_numbers};
use std::alloc::Global;
use tables::Draft;

fn enter_accept<W: Kind>(line: usize, draft: &mut Draft<W>, state: usize) -> Result<(), Trouble>
    ensures { Entered W.Kind.weights (draft_holds W.Kind.stands draft.old) (accept state) line (draft_holds W.Kind.stands draft.new) result }
{
    at_line(line, draft.accept(state))?;
    Ok(())
}

// The weight is read before the table tests the rule.
fn enter_rule<W: Kind>(
    line: usize,
    draft: &mut Draft<W>,
    symbol: usize,
    children: &[usize],
    target: usize,
    weight: &[u8],
) -> Result<(), Trouble>
    ensures { Entered W.Kind.weights (draft_holds W.Kind.stands draft.old) (rule symbol target weight.now children.now) line (draft_holds W.Kind.stands draft.new) result }
{
    let weight = at_line(line, read_weight(weight))?;
    at_line(line, draft.add(symbol, children, target, weight))?;
    Ok(())
}

// A line between the first and the last of a table.
pub fn enter<W: Kind>(
    heap: Global,
    number: usize,
    line: Line,
    draft: &mut Draft<W>,
) -> Result<(), Trouble>
    ensures { EnteredLine W.Kind.weights (draft_holds W.Kind.stands draft.old) line.entry number (draft_holds W.Kind.stands draft.new) result }
{
    match line {
        Line::Accept { state } => enter_accept(number, draft, state),
        Line::Rule {
            symbol,
            target,
            weight,
            children,
        } => {
            let children = read_numbers(heap, children)?;
            enter_rule(number, draft, symbol, &children, target, weight)
        }
        Line::Kind { .. } | Line::Table { .. } | Line::End => Err(Trouble::Fault(Fault::Layout {
            line: number,
        })),
    }
}
