// Running a tree list through a table, entry by entry.
ghost use Rattle.std.specs.Prelude.{◌≡◌, ℕ, ◌<◌, ◌≤◌, [], ◌∷◌, map, length, take, slice_set};
ghost use Rattle.std.specs.Option.{option_map};
ghost use Rattle.automata.specs.Runs.{step, run as run_of};
ghost use Rattle.trees.specs.Lists.{IsTreeList, children_of, tree_at, tree_of, bad_list};
ghost use Rattle.trees.specs.Refusals.{when, Answers};
ghost use Rattle.trees.specs.declared.refusal.Refusal.TheVariants.{Short};
ghost use Rattle.rules.specs.Shapes.{ranks_in, accepts_in, automaton, automaton_of};
ghost use Rattle.rules.specs.declared.side.Side.TheVariants.{First};
ghost use Rattle.rules.specs.Running.{at_of, run_at, row_runs, ats_of};
ghost use Rattle.rules.specs.Weighing.{Said, Weighed};

use crate::lookup::rule_for;
use crate::place::Place;
use crate::rule::Rule;
use crate::run::Run;
use crate::shape::Shape;
use crate::side::Side;
use crate::table::Table;
use crate::weighing::Weighing;
use kinds::Kind;
use trees::{Node, Refusal, check_list};

// The run that a place of the work list holds for one side.
pub fn run_of<W: Kind>(work: &[Place<W>], side: Side, entry: usize) -> Option<Run<W>>
    ensures { option_map (at_of W.Kind.stands) result ≡ run_at W.Kind.stands side work.now entry }
{
    work.get(entry)?.run(side)
}

// The states of the numbered entries, in order, and the product of their run weights, if all have a run.
fn gather<W: Kind>(work: &[Place<W>], side: Side, entries: &[usize]) -> Option<([usize; 4], W)>
    requires { length entries.now ≤ 4 }
    ensures { option_map (ats_of W.Kind.stands (length entries.now)) result ≡ row_runs W.Kind.weights (map (run_at W.Kind.stands side work.now) entries.now) }
{
    let mut states = [0; 4];
    let mut weight = W::one();
    for (k, entry) in entries.iter().enumerate() {
        let run = run_of(work, side, *entry)?;
        states[k] = run.state;
        weight = weight.times(run.weight);
    }
    Some((states, weight))
}

// The run by a rule over children of this run weight.
fn run_by<W: Kind>(rule: &Rule<W>, weight: W) -> Run<W>
    ensures state { result.state ≡ rule.now.target }
    ensures weight { W.Kind.stands result.weight ≡ W.Kind.weights.times (W.Kind.stands weight) (W.Kind.stands rule.now.weight) }
{
    Run {
        state: usize::from(rule.target),
        weight: weight.times(rule.weight),
    }
}

// The run of a node over the runs of its children.
pub fn run_node<W: Kind>(
    table: &Table<W>,
    node: &Node,
    work: &[Place<W>],
    side: Side,
) -> Option<Run<W>>
    ensures { option_map (at_of W.Kind.stands) result ≡ step W.Kind.weights (automaton_of W.Kind.stands table.now) node.now.symbol (row_runs W.Kind.weights (map (run_at W.Kind.stands side work.now) (children_of (ranks_in table.now.shape.now) node.now))) }
{
    let rank = table.shape.rank(node.symbol);
    let (states, weight) = gather(work, side, &node.children[..rank])?;
    let rule = rule_for(table.rules, node.symbol, &states[..rank])?;
    Some(run_by(&rule, weight))
}

// Runs the entries of a tree list in order, each into its place.
fn run_entries<W: Kind>(table: &Table<W>, list: &[Node], work: &mut [Place<W>])
    requires { (IsTreeList (ranks_in table.now.shape.now) list.now) × (length list.now ≤ length work.old) }
    ensures { (i : ℕ) → i < length list.now → run_at W.Kind.stands First work.new i ≡ run_of W.Kind.weights (automaton_of W.Kind.stands table.now) (tree_at (ranks_in table.now.shape.now) list.now i) }
{
    for (i, node) in list.iter().enumerate() {
        let first = run_node(table, node, work, Side::First);
        work[i] = Place {
            node: *node,
            first,
            second: None,
            mark: None,
        };
    }
}

// What is said of a tree with this run.
fn verdict<W: Kind>(shape: &Shape, run: Option<Run<W>>) -> Weighing<W>
    ensures { Said W.Kind.stands (accepts_in shape.now) (option_map (at_of W.Kind.stands) run) result }
{
    match run {
        None => Weighing::NoRun,
        Some(Run { state, weight }) => {
            if shape.is_accepting(state) {
                Weighing::Weighs { state, weight }
            } else {
                Weighing::Ended { state }
            }
        }
    }
}

// Weighs the tree of a list.
fn weigh_tree<W: Kind>(
    table: &Table<W>,
    list: &[Node],
    work: &mut [Place<W>],
) -> Result<Weighing<W>, Refusal>
    ensures { Answers (bad_list (ranks_in table.now.shape.now) list.now ∷ when (length work.old < length list.now) Short ∷ []) (Weighed W.Kind.stands W.Kind.weights (automaton_of W.Kind.stands table.now) (tree_of (ranks_in table.now.shape.now) list.now)) (work.new ≡ work.old) result }
{
    check_list(&table.shape.alphabet(), list)?;
    if work.len() < list.len() {
        return Err(Refusal::Short);
    }
    run_entries(table, list, work);
    Ok(verdict(table.shape, run_of(work, Side::First, list.len() - 1)))
}

// Weighs the tree of a list by the first `count` rules of the memory, which stays as it is.
pub fn weigh<W: Kind>(
    shape: &Shape,
    memory: &mut [Rule<W>],
    count: usize,
    list: &[Node],
    work: &mut [Place<W>],
) -> Result<Weighing<W>, Refusal>
    ensures answer { Answers (bad_list (ranks_in shape.now) list.now ∷ when (length work.old < length list.now) Short ∷ []) (Weighed W.Kind.stands W.Kind.weights (automaton W.Kind.stands shape.now (take count memory.old)) (tree_of (ranks_in shape.now) list.now)) (work.new ≡ work.old) result }
    ensures same { memory.new ≡ memory.old }
{
    weigh_tree(&Table::of_first(shape, memory, count), list, work)
}
