// Tables from lists of plain rules, for any kind of weight.
use kinds::{Kind, Residue};
use known::chain;
use rules::{Measure, Rule};
use std::alloc::Global;
use std::test::*;
use tables::{Closed, Draft};

// The rule symbol(children) → target, with the code of its weight.
#[derive(Clone, Copy)]
pub struct Line<'a> {
    symbol: usize,
    children: &'a [usize],
    target: usize,
    code: i64,
}

impl<'a> Line<'a> {
    pub fn new(symbol: usize, children: &'a [usize], target: usize, code: i64) -> Line<'a> {
        Line {
            symbol,
            children,
            target,
            code,
        }
    }
}

// Enters these accepting states and these rules.
pub fn fill<W: Kind>(
    draft: &mut Draft<'_, W>,
    accepting: &[usize],
    lines: &[Line<'_>],
) -> Result<(), Fail> {
    for state in accepting {
        draft.accept(*state)?;
    }
    for line in lines {
        draft.add(line.symbol, line.children, line.target, W::read(line.code)?)?;
    }
    Ok(())
}

pub fn measured(ranks: &[usize], states: usize) -> Result<Measure, Fail> {
    let mut measure = Measure::fresh();
    measure.measure(ranks, states)?;
    Ok(measure)
}

// Opens a draft with so many places for rules, has it filled, closes it, and hands the table on.
pub fn with_table<W, T, D, F>(
    heap: Global,
    measure: &Measure,
    places: usize,
    draft_rules: D,
    then: F,
) -> Result<T, Fail>
where
    W: Kind + Clone,
    D: FnOnce(&mut Draft<'_, W>) -> Result<(), Fail>,
    F: FnOnce(&mut Closed<'_, W>) -> Result<T, Fail>,
    requires drafts { D.IsAlwaysCallable draft_rules }
    requires goes_on { F.IsAlwaysCallable then }
{
    let mut memory = vec![in heap; Rule::blank(); places]?;
    let mut draft = Draft::open(measure, memory.as_mut_slice());
    draft_rules(&mut draft)?;
    then(&mut draft.close())
}

// Hands on the table of the rules 0 → 0 / low and 1(0) → 1 / high, with state 1 accepting, at weights with these codes.
pub fn with_chain<W, T, F>(heap: Global, low: i64, high: i64, then: F) -> Result<T, Fail>
where
    W: Kind + Clone,
    F: FnOnce(&mut Closed<'_, W>) -> Result<T, Fail>,
    requires { F.IsAlwaysCallable then }
{
    with_table(
        heap,
        &measured(&[0, 1], 2)?,
        2,
        |draft| Ok(chain(draft, W::read(low)?, W::read(high)?)?),
        then,
    )
}

// The rules 0 → 0 / 3 and 1(q) → q + 1 / 3 for 48 states, the last of which is accepting, but for the last rule, whose weight is given.
pub fn links(draft: &mut Draft<'_, Residue>, last: i64) -> Result<(), Fail> {
    let weight = Residue::read(3)?;
    draft.accept(47)?;
    draft.add(0, &[], 0, weight)?;
    for q in 0..46usize {
        draft.add(1, &[q], q + 1, weight)?;
    }
    draft.add(1, &[46], 47, Residue::read(last)?)?;
    Ok(())
}
