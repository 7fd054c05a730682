// The table of a purchase order, built through the calls of a draft, and what it says of two readings.
ghost use Rattle.std.specs.Prelude.{◌≡◌, map, length, take, IfOk, MatchResult, OnOk};
ghost use Rattle.kinds.specs.Costs.{costs};
ghost use Rattle.trees.specs.Lists.{tree_of};
ghost use Rattle.rules.specs.Weighing.{Says};
ghost use Rattle.rules.specs.Books.{Opens, added};
ghost use Rattle.rules.specs.Measures.{ranks as measure_ranks};
ghost use Rattle.tables.specs.Images.{draft_holds, closed_holds, SameDraft, SameClosed};
ghost use Rattle.orders.specs.Symbols.{order_ranks};
ghost use Rattle.orders.specs.Tables.{state_number, line_rule, lines_added, order_table, Judges};

use crate::choice::Which;
use crate::fault::{Fault, Unweighed};
use crate::line::Line;
use crate::reading::Reading;
use crate::state::State;
use crate::symbol::ranks;
use kinds::Cost;
use rules::{Measure, Place, Rule, Weighing};
use std::alloc::Global;
use tables::{Closed, Draft};
use trees::{Node, Refusal};

// A reading, and what the table says of it.
#[derive(Clone, Copy)]
pub struct Weighed<'a> {
    pub reading: &'a Reading,
    pub weighing: Weighing<Cost>,
}

// What the table says of two readings, and by what a line that is added twice is refused.
#[derive(Clone, Copy)]
pub struct Verdict<'a> {
    pub first: Weighed<'a>,
    pub second: Weighed<'a>,
    pub refusal: Refusal,
}

// The numbers of a line's children, in the first places.
fn numbers(line: &Line) -> [usize; 4]
    ensures { take (length line.now.children.now) result ≡ map state_number line.now.children.now }
{
    let mut places = [0; 4];
    for (k, state) in line.children.iter().enumerate() {
        places[k] = usize::from(*state);
    }
    places
}

// Adds the rule of a line.
fn add_line(draft: &mut Draft<'_, Cost>, line: &Line) -> Result<(), Refusal>
    ensures { MatchResult result (λ _. draft_holds (λ v. v) draft.new ≡ added (draft_holds (λ v. v) draft.old) (line_rule line.now)) (λ _. SameDraft draft.old draft.new) }
{
    let children = numbers(line);
    draft.add(
        line.symbol.into(),
        &children[..line.children.len()],
        line.target.into(),
        Cost::from(line.cost),
    )
}

// Adds the rules of lines, in order, up to the first that is refused.
fn add_lines(draft: &mut Draft<'_, Cost>, lines: &[Line]) -> Result<(), Refusal>
    ensures { OnOk result (draft_holds (λ v. v) draft.new ≡ lines_added (draft_holds (λ v. v) draft.old) lines.now) }
{
    for line in lines {
        add_line(draft, line)?;
    }
    Ok(())
}

// The size of the table.
fn measured() -> Result<Measure, Refusal>
    ensures { IfOk result (λ m. (measure_ranks m ≡ order_ranks) × (m.states ≡ 11)) }
{
    let mut measure = Measure::fresh();
    measure.measure(&ranks(), 11)?;
    Ok(measure)
}

// Marks the accepting state, and adds the rules of the lines.
fn fill(draft: &mut Draft<'_, Cost>, lines: &[Line]) -> Result<(), Refusal>
    requires { Opens order_ranks 11 (draft_holds (λ v. v) draft.old).places (draft_holds (λ v. v) draft.old) }
    ensures { OnOk result ((draft_holds (λ v. v) draft.new).content ≡ order_table lines.now) }
{
    draft.accept(State::Order.into())?;
    add_lines(draft, lines)
}

// Adds the first line once more, and answers by what that is refused.
fn repeat(draft: &mut Draft<'_, Cost>, lines: &[Line]) -> Result<Refusal, Fault>
    ensures { OnOk result (SameDraft draft.old draft.new) }
{
    let line = lines.first().ok_or(Fault::Repeated)?;
    match add_line(draft, line) {
        Ok(()) => Err(Fault::Repeated),
        Err(refusal) => Ok(refusal),
    }
}

// What the table says of the tree of a list.
fn weigh_list(
    heap: Global,
    table: &mut Closed<'_, Cost>,
    which: Which,
    list: &[Node],
) -> Result<Weighing<Cost>, Fault>
    ensures answer { IfOk result (λ w. Says (λ v. v) costs (closed_holds (λ v. v) table.old).content (tree_of (closed_holds (λ v. v) table.old).content.ranks list.now) w) }
    ensures same { SameClosed table.old table.new }
{
    let mut work = vec![in heap; Place::blank(); list.len()]?;
    table
        .weigh(list, work.as_mut_slice())
        .map_err(|refusal| Fault::Reading(which, Unweighed(refusal)))
}

// What the table of the lines says of two readings, and by what a line that is added twice is refused.
pub fn weigh_both<'a>(
    heap: Global,
    lines: &[Line],
    first: &'a Reading,
    second: &'a Reading,
) -> Result<Verdict<'a>, Fault>
    ensures { IfOk result (λ v. Judges lines.now first.now v.first × Judges lines.now second.now v.second) }
{
    let measure = measured()?;
    let mut memory = vec![in heap; Rule::blank(); lines.len()]?;
    let mut draft = Draft::open(&measure, memory.as_mut_slice());
    fill(&mut draft, lines)?;
    let refusal = repeat(&mut draft, lines)?;
    let mut table = draft.close();
    let one = weigh_list(heap, &mut table, Which::First, first.entries.as_slice())?;
    let other = weigh_list(heap, &mut table, Which::Second, second.entries.as_slice())?;
    Ok(Verdict {
        first: Weighed {
            reading: first,
            weighing: one,
        },
        second: Weighed {
            reading: second,
            weighing: other,
        },
        refusal,
    })
}
