// Telling live states apart by marking pairs, in two rounds.
ghost use Rattle.std.specs.List.{ContainsAt};
ghost use Rattle.automata.specs.Automata.{Sound};
ghost use Rattle.automata.specs.Marking.{DecidesLive, Chosen};
ghost use Rattle.pairs.specs.Cells.{cell_at};
ghost use Rattle.rules.specs.Shapes.{ranks_in, transition, automaton_of};
ghost use Rattle.reduction.specs.Classes.{factor_at};
ghost use Rattle.reduction.specs.Marking.{live_in, ToldFirst, ToldSecond};
ghost use Rattle.reduction.specs.Rounds.{round_in, Grown, Swept, ComparedOne, ComparedAll};

use crate::comparison::Comparison;
use crate::live_table::LiveTable;
use kinds::Kind;
use pairs::PairTable;
use rules::{Place, Rule};

impl<'a, W: Kind> Comparison<'a, W> {
    // Compares a rule with every rule, if all its states are live; whether a pair was marked.
    fn compare_one(&self, rule: &Rule<W>, marks: &mut PairTable<bool>) -> bool
        requires { ContainsAt (automaton_of W.Kind.stands self.now.live.now.table).rules (transition W.Kind.stands (ranks_in self.now.live.now.table.shape.now) rule.now) }
        ensures { Swept W.Kind.weights (automaton_of W.Kind.stands self.now.live.now.table) (live_in self.now.live.now.life.now) (round_in W.Kind.stands W.Kind.weights self.now.factors) (ComparedOne W.Kind.weights (automaton_of W.Kind.stands self.now.live.now.table) (live_in self.now.live.now.life.now) (round_in W.Kind.stands W.Kind.weights self.now.factors) (transition W.Kind.stands (ranks_in self.now.live.now.table.shape.now) rule.now)) marks.old marks.new result }
    {
        let mut marked = false;
        if !self.live.is_live_rule(rule) {
            return marked;
        }
        let table = self.live.table;
        for other in table.rules {
            if self.compare(rule, other, marks) {
                marked = true;
            }
        }
        marked
    }

    // Compares every rule with every rule; whether a pair was marked.
    fn compare_all(&self, marks: &mut PairTable<bool>) -> bool
        ensures { Swept W.Kind.weights (automaton_of W.Kind.stands self.now.live.now.table) (live_in self.now.live.now.life.now) (round_in W.Kind.stands W.Kind.weights self.now.factors) (ComparedAll W.Kind.weights (automaton_of W.Kind.stands self.now.live.now.table) (live_in self.now.live.now.life.now) (round_in W.Kind.stands W.Kind.weights self.now.factors)) marks.old marks.new result }
    {
        let mut marked = false;
        let table = self.live.table;
        for rule in table.rules {
            if self.compare_one(rule, marks) {
                marked = true;
            }
        }
        marked
    }

    // Compares the rules until no pair is marked any more.
    fn settle(&self, marks: &mut PairTable<bool>)
        ensures grown { Grown W.Kind.weights (automaton_of W.Kind.stands self.now.live.now.table) (live_in self.now.live.now.life.now) (round_in W.Kind.stands W.Kind.weights self.now.factors) marks.old marks.new }
        ensures rest { ComparedAll W.Kind.weights (automaton_of W.Kind.stands self.now.live.now.table) (live_in self.now.live.now.life.now) (round_in W.Kind.stands W.Kind.weights self.now.factors) marks.new }
    {
        while self.compare_all(marks) {}
    }
}

// Round one: marks the pairs of live states with different signs of life.
pub(crate) fn first_marks<W: Kind>(live: &LiveTable<W>) -> PairTable<bool>
    ensures { Sound (automaton_of W.Kind.stands live.now.table) → DecidesLive W.Kind.weights (automaton_of W.Kind.stands live.now.table) (live_in live.now.life.now) → ToldFirst W.Kind.weights (automaton_of W.Kind.stands live.now.table) (live_in live.now.life.now) (cell_at result) }
{
    let mut marks = live.accept_marks();
    live.mark_lone(&mut marks);
    let comparison = Comparison {
        live,
        factors: None,
    };
    comparison.settle(&mut marks);
    marks
}

// Round two, with factors chosen by the marks of round one: marks the pairs of live states that are not equivalent.
pub(crate) fn second_marks<W: Kind>(
    live: &LiveTable<W>,
    work: &[Place<W>],
    marks: &mut PairTable<bool>,
)
    ensures { Sound (automaton_of W.Kind.stands live.now.table) → DecidesLive W.Kind.weights (automaton_of W.Kind.stands live.now.table) (live_in live.now.life.now) → ToldFirst W.Kind.weights (automaton_of W.Kind.stands live.now.table) (live_in live.now.life.now) (cell_at marks.old) → Chosen W.Kind.weights (automaton_of W.Kind.stands live.now.table) (live_in live.now.life.now) (cell_at marks.old) (factor_at W.Kind.stands W.Kind.weights work.now) → ToldSecond W.Kind.weights (automaton_of W.Kind.stands live.now.table) (live_in live.now.life.now) (factor_at W.Kind.stands W.Kind.weights work.now) (cell_at marks.new) }
{
    let comparison = Comparison {
        live,
        factors: Some(work),
    };
    comparison.settle(marks);
}
