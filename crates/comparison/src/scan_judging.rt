// What a node over entries with known pairs of states adds.
ghost use Rattle.std.specs.Prelude.{◌≡◌, true, false, Some, Decides};
ghost use Rattle.std.specs.Option.{option_map};
ghost use Rattle.trees.specs.Lists.{children_of};
ghost use Rattle.rules.specs.Shapes.{ranks_in};
ghost use Rattle.rules.specs.Running.{at_of};
ghost use Rattle.comparison.specs.Scanning.{tables_of, runs_of, entry_of, runs_in, of_side, Even, Unequal, Judged, node_run, Said};

use crate::scan::Scan;
use crate::scan_verdict::Verdict;
use kinds::Kind;
use rules::{Place, Run, Side, run_node, run_of};
use trees::Node;

// Whether the first two weights have the ratio of the other two.
fn are_in_ratio<W: Kind>(first: W, second: W, one: W, other: W) -> bool
    ensures { Decides result (W.Kind.weights.times (W.Kind.stands first) (W.Kind.stands other) ≡ W.Kind.weights.times (W.Kind.stands one) (W.Kind.stands second)) }
{
    first.times(other).same(one.times(second))
}

// Whether the run weights of the entry have the ratio of these weights.
fn is_even<W: Kind>(work: &[Place<W>], entry: usize, first: W, second: W) -> bool
    ensures even { result ≡ true → Even W.Kind.weights (runs_in W.Kind.stands work.now) entry (W.Kind.stands first) (W.Kind.stands second) }
    ensures uneven { result ≡ false → Unequal W.Kind.weights (runs_in W.Kind.stands work.now) entry (W.Kind.stands first) (W.Kind.stands second) }
{
    let Some(one) = run_of(work, Side::First, entry) else {
        return true;
    };
    let Some(other) = run_of(work, Side::Second, entry) else {
        return true;
    };
    are_in_ratio(first, second, one.weight, other.weight)
}

impl<'a, W: Kind> Scan<'a, W> {
    // The run of a node on one side, if it ends in a live state.
    fn live_run(&self, side: Side, node: &Node) -> Option<Run<W>>
        ensures { option_map (at_of W.Kind.stands) result ≡ node_run W.Kind.weights (tables_of W.Kind.stands self.now) (runs_of W.Kind.stands self.now) side node.now.symbol (children_of (of_side (tables_of W.Kind.stands self.now) side).ranks node.now) }
    {
        let run = run_node(&self.live.tables.on(side), node, self.work, side)?;
        if self.is_live(side, run.state) {
            Some(run)
        } else {
            None
        }
    }

    // What a node with these two runs to live states adds.
    fn pair_verdict(&self, first: Run<W>, second: Run<W>) -> Option<Verdict>
        ensures { Judged W.Kind.weights (runs_of W.Kind.stands self.now) (entry_of self.now) (Some (at_of W.Kind.stands first)) (Some (at_of W.Kind.stands second)) result }
    {
        let Some(other) = self.pairs.get(first.state, second.state) else {
            return Some(Verdict::NewPair);
        };
        if is_even(self.work, other, first.weight, second.weight) {
            None
        } else {
            Some(Verdict::Uneven { other })
        }
    }

    // What a node with these runs to live states adds.
    fn verdict_of(&self, first: Option<Run<W>>, second: Option<Run<W>>) -> Option<Verdict>
        ensures { Judged W.Kind.weights (runs_of W.Kind.stands self.now) (entry_of self.now) (option_map (at_of W.Kind.stands) first) (option_map (at_of W.Kind.stands) second) result }
    {
        match (first, second) {
            (None, None) => None,
            (Some(_), None) => Some(Verdict::Lone { side: Side::First }),
            (None, Some(_)) => Some(Verdict::Lone { side: Side::Second }),
            (Some(one), Some(other)) => self.pair_verdict(one, other),
        }
    }

    // What the node adds, if it adds anything.
    pub fn judge(&self, node: &Node) -> Option<Verdict>
        requires { ranks_in self.now.live.tables.first.shape.now ≡ ranks_in self.now.live.tables.second.shape.now }
        ensures { Said W.Kind.weights (tables_of W.Kind.stands self.now) (runs_of W.Kind.stands self.now) (entry_of self.now) node.now.symbol (children_of (ranks_in self.now.live.tables.first.shape.now) node.now) result }
    {
        let first = self.live_run(Side::First, node);
        let second = self.live_run(Side::Second, node);
        self.verdict_of(first, second)
    }
}
