// The nodes over all entries with known pairs whose states on one side are the children of a rule.
ghost use Rattle.std.specs.Prelude.{◌≡◌, ◌+◌, ◌≤◌, length, take, Some, None};
ghost use Rattle.automata.specs.Trees.{rank as rank_of};
ghost use Rattle.trees.specs.Lists.{children_of};
ghost use Rattle.rules.specs.Shapes.{ranks_in};
ghost use Rattle.comparison.specs.declared.scan_finding.Finding.{Finding};
ghost use Rattle.comparison.specs.Scanning.{tables_of, runs_of, entry_of, PairsWithin, ClearOver, Filled, Said, Tells};

use crate::scan::Scan;
use crate::scan_finding::Finding;
use crate::sides::with_child;
use kinds::Kind;
use rules::Side;
use trees::Node;

impl<'a, W: Kind> Scan<'a, W> {
    // The node, if it adds anything.
    fn finding_of(&self, node: Node) -> Option<Finding>
        requires same { ranks_in self.now.live.tables.first.shape.now ≡ ranks_in self.now.live.tables.second.shape.now }
        requires filled { Filled (entry_of self.now) (rank_of (ranks_in self.now.live.tables.first.shape.now) node.symbol) node }
        ensures clear { result ≡ None → Said W.Kind.weights (tables_of W.Kind.stands self.now) (runs_of W.Kind.stands self.now) (entry_of self.now) node.symbol (children_of (ranks_in self.now.live.tables.first.shape.now) node) None }
        ensures found { (f : Finding) → result ≡ Some f → Tells W.Kind.weights (tables_of W.Kind.stands self.now) (runs_of W.Kind.stands self.now) (entry_of self.now) node.symbol f }
    {
        let verdict = self.judge(&node)?;
        Some(Finding { node, verdict })
    }

    // Fills the places of the node from this one on, with entries over these states of the side, in every way, and answers the first node that
    // adds anything.
    pub fn fill(&self, side: Side, states: &[u8], node: Node, place: usize) -> Option<Finding>
        requires same { ranks_in self.now.live.tables.first.shape.now ≡ ranks_in self.now.live.tables.second.shape.now }
        requires within { PairsWithin (tables_of W.Kind.stands self.now) (entry_of self.now) }
        requires rank { place + length states.now ≡ rank_of (ranks_in self.now.live.tables.first.shape.now) node.symbol }
        requires small { place + length states.now ≤ 4 }
        requires filled { Filled (entry_of self.now) place node }
        ensures clear { result ≡ None → ClearOver W.Kind.weights (tables_of W.Kind.stands self.now) (runs_of W.Kind.stands self.now) (entry_of self.now) side node.symbol (take place node.children) states.now }
        ensures found { (f : Finding) → result ≡ Some f → Tells W.Kind.weights (tables_of W.Kind.stands self.now) (runs_of W.Kind.stands self.now) (entry_of self.now) node.symbol f }
    {
        let Some((state, rest)) = states.split_first() else {
            return self.finding_of(node);
        };
        for q in 0..self.other_states(side) {
            if let Some(entry) = self.known_pair(side, usize::from(*state), q) {
                let finding = self.fill(side, rest, with_child(&node, place, entry), place + 1);
                if finding.is_some() {
                    return finding;
                }
            }
        }
        None
    }
}
