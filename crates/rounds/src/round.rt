// One round: a large table is generated and reduced to a small one, the two are compared, and the large one is deleted.
use crate::fault::Fault;
use crate::form::Form;
use crate::generating::{Plan, measured};
use comparison::Comparison;
use kinds::{Kind, Residue};
use rules::{Measure, Place, Rule, Weighing};
use std::fmt;
use std::time::Instant;
use tables::{Closed, Draft};
use trees::Node;

// How many places compare needs, at the most.
const PLACES: usize = 4802;

// What a tree weighs, in words.
#[derive(Clone, Copy)]
struct Outcome(Weighing<Residue>);

impl fmt::Display for Outcome {
    fn fmt<W: fmt::Write>(&self, f: &mut fmt::Formatter<W>) -> fmt::Result {
        match self.0 {
            Weighing::NoRun | Weighing::Ended { .. } => write!(f, "nothing"),
            Weighing::Weighs { weight, .. } => write!(f, "{}", weight.code()),
        }
    }
}

fn reduce(rt: &HostRuntime, table: &mut Closed<'_, Residue>) -> Result<(), Fault> {
    let mut work = vec![in rt.alloc(); Place::blank(); 48]?;
    let start = Instant::now(rt)?;
    let (before, after) = table.reduce(work.as_mut_slice())?;
    let time = start.elapsed(rt)?.as_micros();
    println!(rt; "reduced: of {before} states {after} are left")?;
    eprintln!(rt; "reducing took {time} microseconds")?;
    Ok(())
}

// Weighs the tree that tells two tables apart in both.
fn weigh_both(
    rt: &HostRuntime,
    first: &mut Closed<'_, Residue>,
    second: &mut Closed<'_, Residue>,
    tree: &[Node],
) -> Result<(), Fault> {
    let mut work = vec![in rt.alloc(); Place::blank(); tree.len()]?;
    let one = Outcome(first.weigh(tree, work.as_mut_slice())?);
    let other = Outcome(second.weigh(tree, work.as_mut_slice())?);
    let entries = tree.len();
    println!(rt;
        "different: a tree list of {entries} entries weighs {one} in one and {other} in the other"
    )?;
    Ok(())
}

fn compare(
    rt: &HostRuntime,
    first: &mut Closed<'_, Residue>,
    second: &mut Closed<'_, Residue>,
) -> Result<(), Fault> {
    let heap = rt.alloc();
    let mut list = vec![in heap; Node {
        symbol: 0,
        children: [0; 4]
    }; PLACES]?;
    let mut work = vec![in heap; Place::blank(); PLACES]?;
    let start = Instant::now(rt)?;
    let comparison = first.compare(second, list.as_mut_slice(), work.as_mut_slice())?;
    let time = start.elapsed(rt)?.as_micros();
    eprintln!(rt; "comparing took {time} microseconds")?;
    match comparison {
        Comparison::Same => println!(rt; "same: every tree weighs alike in both")?,
        Comparison::Different { entries } => {
            list.truncate(entries);
            weigh_both(rt, first, second, list.as_slice())?;
        }
    }
    Ok(())
}

// Generates a table and hands it on. The table is gone at the end.
fn with_table<F: FnOnce(&mut Closed<'_, Residue>) -> Result<(), Fault>>(
    rt: &HostRuntime,
    measure: &Measure,
    plan: Plan,
    then: F,
) -> Result<(), Fault>
    requires { F.IsAlwaysCallable then }
{
    let mut memory = vec![in rt.alloc(); Rule::blank(); 1024]?;
    let mut draft = Draft::open(measure, memory.as_mut_slice());
    plan.fill(&mut draft)?;
    then(&mut draft.close())
}

pub fn round(rt: &HostRuntime, form: Form) -> Result<(), Fault> {
    let Form {
        classes,
        copies,
        rank,
        ..
    } = form;
    let rules = form.rules();
    println!(rt; "generated: {classes} classes of {copies} states, {rules} rules, rank {rank}")?;
    let measure = measured(rt.alloc(), &form)?;
    let plain = Plan {
        form,
        salt: 1,
        changed: false,
    };
    with_table(rt, &measure, plain, |small| {
        reduce(rt, small)?;
        with_table(rt, &measure, plain, |large| compare(rt, large, small))?;
        println!(rt; "the large table is deleted")?;
        Ok(())
    })?;
    let salted = Plan { salt: 2, ..plain };
    with_table(rt, &measure, salted, |large| {
        println!(rt; "two large tables:")?;
        with_table(rt, &measure, plain, |other| compare(rt, other, large))?;
        println!(rt; "one of them with other weights:")?;
        let changed = Plan {
            changed: true,
            ..plain
        };
        with_table(rt, &measure, changed, |other| compare(rt, other, large))
    })
}
