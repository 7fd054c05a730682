// Whether the rules of two tables call for something new over the known pairs of states.
ghost use Rattle.std.specs.Prelude.{◌≡◌, ℕ, Some, None};
ghost use Rattle.rules.specs.Shapes.{ranks_in, transition};
ghost use Rattle.comparison.specs.declared.scan_finding.Finding.{Finding};
ghost use Rattle.comparison.specs.Scanning.{tables_of, runs_of, entry_of, PairsWithin, ClearRule, Rested, Quiet, ClearAt, Told};

use crate::exploring_cursor::Cursor;
use crate::scan::Scan;
use crate::scan_finding::Finding;
use kinds::Kind;
use rules::{Rule, Side};
use trees::Node;

impl<'a, W: Kind> Scan<'a, W> {
    // The first node over known pairs that adds anything, where the pairs' states on the side are the children of the rule. A rule without new pairs
    // is passed over.
    fn scan(&self, side: Side, rule: &Rule<W>, since: Option<usize>) -> Option<Finding>
        requires same { ranks_in self.now.live.tables.first.shape.now ≡ ranks_in self.now.live.tables.second.shape.now }
        requires within { PairsWithin (tables_of W.Kind.stands self.now) (entry_of self.now) }
        requires quiet { (m : ℕ) → since ≡ Some m → Rested side (entry_of self.now) m (transition W.Kind.stands (ranks_in self.now.live.tables.first.shape.now) rule.now).children → ClearRule W.Kind.weights (tables_of W.Kind.stands self.now) (runs_of W.Kind.stands self.now) (entry_of self.now) side (transition W.Kind.stands (ranks_in self.now.live.tables.first.shape.now) rule.now) }
        ensures clear { result ≡ None → ClearRule W.Kind.weights (tables_of W.Kind.stands self.now) (runs_of W.Kind.stands self.now) (entry_of self.now) side (transition W.Kind.stands (ranks_in self.now.live.tables.first.shape.now) rule.now) }
        ensures found { (f : Finding) → result ≡ Some f → Told W.Kind.weights (tables_of W.Kind.stands self.now) (runs_of W.Kind.stands self.now) (entry_of self.now) f }
    {
        let shape = self.live.tables.first.shape;
        let symbol = usize::from(rule.left.symbol);
        if symbol >= shape.alphabet().len() {
            return None;
        }
        if !self.is_live(side, usize::from(rule.target)) {
            return None;
        }
        let states = &rule.left.children[..shape.rank(symbol)];
        if self.is_rested(side, states, since) {
            return None;
        }
        let node = Node {
            symbol,
            children: [0; 4],
        };
        self.fill(side, states, node, 0)
    }

    // The first node that adds anything for the rule at the cursor.
    pub fn scan_at(&self, cursor: &Cursor) -> Option<Finding>
        requires same { ranks_in self.now.live.tables.first.shape.now ≡ ranks_in self.now.live.tables.second.shape.now }
        requires within { PairsWithin (tables_of W.Kind.stands self.now) (entry_of self.now) }
        requires quiet { Quiet W.Kind.weights (tables_of W.Kind.stands self.now) (runs_of W.Kind.stands self.now) (entry_of self.now) cursor.now.since }
        ensures clear { result ≡ None → ClearAt W.Kind.weights (tables_of W.Kind.stands self.now) (runs_of W.Kind.stands self.now) (entry_of self.now) cursor.now.first cursor.now.second }
        ensures found { (f : Finding) → result ≡ Some f → Told W.Kind.weights (tables_of W.Kind.stands self.now) (runs_of W.Kind.stands self.now) (entry_of self.now) f }
    {
        if let Some(rule) = self.live.tables.first.rules.get(cursor.first) {
            return self.scan(Side::First, rule, cursor.since);
        }
        let rule = self.live.tables.second.rules.get(cursor.second)?;
        self.scan(Side::Second, rule, cursor.since)
    }
}
