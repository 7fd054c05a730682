// Making an index of rules, and looking up by it.
ghost use Rattle.std.specs.Prelude.{◌≡◌, ℕ, ◌<◌, ◌≤◌, List, map, length, Some};
ghost use Rattle.std.specs.Option.{option_map};
ghost use Rattle.std.specs.List.{slice_get, position};
ghost use Rattle.automata.specs.Trees.{rank};
ghost use Rattle.automata.specs.Automata.{find as find_rule};
ghost use Rattle.rules.specs.Lookup.{has_left};
ghost use Rattle.rules.specs.Shapes.{ranks_in, transition};
ghost use Rattle.rules.specs.declared.rule.Rule.{Rule as Held};
ghost use Rattle.lookup_index.specs.Indexes.{Indexes};

use crate::hashing::{hash, rule_hash};
use crate::rule_index::RuleIndex;
use kinds::Kind;
use rules::{LeftSide, Rule, Shape, is_left};

// The left side of the rule at a place.
fn left_at<W>(rules: &[Rule<W>], place: usize) -> LeftSide
    requires { place < length rules.now }
    ensures { (rule : Held W) × (slice_get rules.now place ≡ Some rule) × (rule.left ≡ result) }
{
    rules[place].left
}

impl RuleIndex {
    // The index of these rules, if they are 1024 at most.
    pub fn new<W>(shape: &Shape, rules: &[Rule<W>]) -> RuleIndex
        ensures { length rules.now ≤ 1024 → Indexes (ranks_in shape.now) result rules.now }
    {
        let mut index = RuleIndex::empty();
        for k in (0..rules.len().min(1024)).rev() {
            let left = left_at(rules, k);
            index.put_first(rule_hash(shape, &left), k);
        }
        index
    }

    // The place of the first rule with the left side `symbol(children)`, for as many children as the symbol's rank, by an index of these rules.
    pub fn find<W>(&self, rules: &[Rule<W>], symbol: usize, children: &[usize]) -> Option<usize>
        ensures within { (i : ℕ) → result ≡ Some i → i < length rules.now }
        ensures first { (ranks : List ℕ) → Indexes ranks self.now rules.now → length children.now ≡ rank ranks symbol → result ≡ position (λ rule. has_left symbol children.now rule.left) rules.now }
    {
        let mut past = 0;
        let mut next = self.head(hash(symbol, children));
        while past < next && next <= rules.len() {
            let left = left_at(rules, next - 1);
            if is_left(&left, symbol, children) {
                return Some(next - 1);
            }
            past = next;
            next = self.next(next - 1);
        }
        None
    }

    // The first rule with the left side `symbol(children)`, for as many children as the symbol's rank, by an index of these rules.
    pub fn rule_for<W: Kind>(
        &self,
        rules: &[Rule<W>],
        symbol: usize,
        children: &[usize],
    ) -> Option<Rule<W>>
        ensures { (ranks : List ℕ) → Indexes ranks self.now rules.now → length children.now ≡ rank ranks symbol → option_map (transition W.Kind.stands ranks) result ≡ find_rule (map (transition W.Kind.stands ranks) rules.now) symbol children.now }
    {
        let place = self.find(rules, symbol, children)?;
        Some(rules[place])
    }
}
