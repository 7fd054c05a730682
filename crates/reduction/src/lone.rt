// Marking the children of rules that have no counterpart for another state.
ghost use Rattle.std.specs.Prelude.{◌≡◌, ℕ, ◌<◌, true, List, map, length, slice_set};
ghost use Rattle.std.specs.List.{ContainsAt};
ghost use Rattle.automata.specs.Trees.{rank};
ghost use Rattle.automata.specs.Automata.{find as find_rule};
ghost use Rattle.automata.specs.Merging.{keeps};
ghost use Rattle.rules.specs.Shapes.{ranks_in, children_in, transition, automaton_of};
ghost use Rattle.reduction.specs.Marking.{live_in};
ghost use Rattle.reduction.specs.Rounds.{round_one, live_target, Grown, LoneNoted, LonePlace, LoneRule, LoneAll};

use crate::live_table::LiveTable;
use kinds::Kind;
use pairs::PairTable;
use rules::{LeftSide, Rule, rule_for};

impl<'a, W: Kind> LiveTable<'a, W> {
    // Whether there is a rule with this left side and a live target.
    fn leads_on(&self, symbol: usize, children: &[usize]) -> bool
        ensures { (ranks : List ℕ) → length children.now ≡ rank ranks symbol → result ≡ live_target (live_in self.now.life.now) (find_rule (map (transition W.Kind.stands ranks) self.now.table.rules.now) symbol children.now) }
    {
        match rule_for(self.table.rules, symbol, children) {
            Some(rule) => self.is_live(usize::from(rule.target)),
            None => false,
        }
    }

    // Whether there is a rule with a live target that has another state in one child place of a left side.
    fn has_counterpart(&self, left: &LeftSide, place: usize, other: usize) -> bool
        requires { place < rank (ranks_in self.now.table.shape.now) left.now.symbol }
        ensures found { result ≡ live_target (live_in self.now.life.now) (find_rule (automaton_of W.Kind.stands self.now.table).rules left.now.symbol (slice_set (children_in self.now.table.shape.now left.now) place other)) }
        ensures four { length left.now.children ≡ 4 }
    {
        let symbol = usize::from(left.symbol);
        let rank = self.table.shape.rank(symbol);
        let mut children = left.states();
        children[place] = other;
        self.leads_on(symbol, &children[..rank])
    }

    // Marks the child in one place of a rule against a state for which the rule has no counterpart.
    fn note_lone(&self, rule: &Rule<W>, place: usize, other: usize, marks: &mut PairTable<bool>)
        requires { (ContainsAt (automaton_of W.Kind.stands self.now.table).rules (transition W.Kind.stands (ranks_in self.now.table.shape.now) rule.now)) × ((keeps (live_in self.now.life.now) (transition W.Kind.stands (ranks_in self.now.table.shape.now) rule.now) ≡ true) × (place < rank (ranks_in self.now.table.shape.now) rule.now.left.symbol)) }
        ensures grown { Grown W.Kind.weights (automaton_of W.Kind.stands self.now.table) (live_in self.now.life.now) round_one marks.old marks.new }
        ensures noted { LoneNoted W.Kind.weights (automaton_of W.Kind.stands self.now.table) (live_in self.now.life.now) (transition W.Kind.stands (ranks_in self.now.table.shape.now) rule.now) place other marks.new }
    {
        let child = usize::from(rule.left.children[place]);
        if !self.is_live(other) {
            return;
        }
        if marks.get(child, other) {
            return;
        }
        if !self.has_counterpart(&rule.left, place, other) {
            marks.mark_both(child, other);
        }
    }

    // Marks the child in one place of a rule against every state for which the rule has no counterpart.
    fn lone_place(&self, rule: &Rule<W>, place: usize, marks: &mut PairTable<bool>)
        requires { (ContainsAt (automaton_of W.Kind.stands self.now.table).rules (transition W.Kind.stands (ranks_in self.now.table.shape.now) rule.now)) × ((keeps (live_in self.now.life.now) (transition W.Kind.stands (ranks_in self.now.table.shape.now) rule.now) ≡ true) × (place < rank (ranks_in self.now.table.shape.now) rule.now.left.symbol)) }
        ensures grown { Grown W.Kind.weights (automaton_of W.Kind.stands self.now.table) (live_in self.now.life.now) round_one marks.old marks.new }
        ensures noted { LonePlace W.Kind.weights (automaton_of W.Kind.stands self.now.table) (live_in self.now.life.now) (transition W.Kind.stands (ranks_in self.now.table.shape.now) rule.now) place marks.new }
    {
        for q in 0..48 {
            self.note_lone(rule, place, q, marks);
        }
    }

    // Marks each child of a rule so, if all states of the rule are live.
    fn lone_rule(&self, rule: &Rule<W>, marks: &mut PairTable<bool>)
        requires { ContainsAt (automaton_of W.Kind.stands self.now.table).rules (transition W.Kind.stands (ranks_in self.now.table.shape.now) rule.now) }
        ensures grown { Grown W.Kind.weights (automaton_of W.Kind.stands self.now.table) (live_in self.now.life.now) round_one marks.old marks.new }
        ensures noted { LoneRule W.Kind.weights (automaton_of W.Kind.stands self.now.table) (live_in self.now.life.now) (transition W.Kind.stands (ranks_in self.now.table.shape.now) rule.now) marks.new }
    {
        if !self.is_live_rule(rule) {
            return;
        }
        for place in 0..self.table.shape.rank(usize::from(rule.left.symbol)) {
            self.lone_place(rule, place, marks);
        }
    }

    // Marks the children of all rules so.
    pub(crate) fn mark_lone(&self, marks: &mut PairTable<bool>)
        ensures grown { Grown W.Kind.weights (automaton_of W.Kind.stands self.now.table) (live_in self.now.life.now) round_one marks.old marks.new }
        ensures noted { LoneAll W.Kind.weights (automaton_of W.Kind.stands self.now.table) (live_in self.now.life.now) marks.new }
    {
        for rule in self.table.rules {
            self.lone_rule(rule, marks);
        }
    }
}
