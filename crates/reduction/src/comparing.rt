// Comparing two rules whose children differ in one place.
ghost use Rattle.std.specs.Prelude.{◌≡◌, ◌≤◌, true, ◌↔◌, length};
ghost use Rattle.std.specs.List.{ContainsAt};
ghost use Rattle.automata.specs.Merging.{keeps};
ghost use Rattle.automata.specs.Pushing.{reweighed};
ghost use Rattle.pairs.specs.Cells.{cell_at};
ghost use Rattle.rules.specs.Shapes.{ranks_in, transition, automaton_of};
ghost use Rattle.reduction.specs.Classes.{factor_at};
ghost use Rattle.reduction.specs.Marking.{live_in};
ghost use Rattle.reduction.specs.Rounds.{round_in, Differs, Faces, Uneven, Tells, Swept, Compared};

use crate::comparison::Comparison;
use crate::factors::weight_pushed;
use kinds::Kind;
use pairs::PairTable;
use rules::{LeftSide, Place, Rule, Shape};

// The place, of the first ones, in which two left sides differ, if it is one.
fn difference(left: &LeftSide, other: &LeftSide, rank: usize) -> Option<usize>
    requires { rank ≤ 4 }
    ensures place { Differs rank left.now.children other.now.children result }
    ensures four { (length left.now.children ≡ 4) × (length other.now.children ≡ 4) }
{
    let mut place = None;
    for (k, state) in left.children[..rank].iter().enumerate() {
        if *state != other.children[k] {
            if place.is_some() {
                return None;
            }
            place = Some(k);
        }
    }
    place
}

// Whether two rules weigh the same after the push.
fn are_even<W: Kind>(shape: &Shape, rule: &Rule<W>, other: &Rule<W>, work: &[Place<W>]) -> bool
    ensures { (result ≡ true) ↔ ((reweighed W.Kind.weights (factor_at W.Kind.stands W.Kind.weights work.now) (transition W.Kind.stands (ranks_in shape.now) rule.now)).weight ≡ (reweighed W.Kind.weights (factor_at W.Kind.stands W.Kind.weights work.now) (transition W.Kind.stands (ranks_in shape.now) other.now)).weight) }
{
    weight_pushed(shape, rule, work).same(weight_pushed(shape, other, work))
}

impl<'a, W: Kind> Comparison<'a, W> {
    // The child place in which two rules differ, if it is one, and the state of the second there and its target are live.
    fn faced(&self, rule: &Rule<W>, other: &Rule<W>) -> Option<usize>
        ensures { Faces (live_in self.now.live.now.life.now) (transition W.Kind.stands (ranks_in self.now.live.now.table.shape.now) rule.now) (transition W.Kind.stands (ranks_in self.now.live.now.table.shape.now) other.now) result }
    {
        if rule.left.symbol != other.left.symbol {
            return None;
        }
        let table = self.live.table;
        let rank = table.shape.rank(usize::from(rule.left.symbol));
        let place = difference(&rule.left, &other.left, rank)?;
        if !self.live.is_live(usize::from(other.target)) {
            return None;
        }
        if !self.live.is_live(usize::from(other.left.children[place])) {
            return None;
        }
        Some(place)
    }

    // Whether two rules weigh differently after the push, if weights are compared.
    fn is_uneven(&self, rule: &Rule<W>, other: &Rule<W>) -> bool
        ensures { (result ≡ true) ↔ Uneven W.Kind.weights (round_in W.Kind.stands W.Kind.weights self.now.factors) (transition W.Kind.stands (ranks_in self.now.live.now.table.shape.now) rule.now) (transition W.Kind.stands (ranks_in self.now.live.now.table.shape.now) other.now) }
    {
        let table = self.live.table;
        match self.factors {
            Some(work) => !are_even(table.shape, rule, other, work),
            None => false,
        }
    }

    // Whether the targets of two rules are marked, or the rules weigh differently.
    fn tells(&self, rule: &Rule<W>, other: &Rule<W>, marks: &PairTable<bool>) -> bool
        ensures { (result ≡ true) ↔ Tells W.Kind.weights (round_in W.Kind.stands W.Kind.weights self.now.factors) (cell_at marks.now) (transition W.Kind.stands (ranks_in self.now.live.now.table.shape.now) rule.now) (transition W.Kind.stands (ranks_in self.now.live.now.table.shape.now) other.now) }
    {
        marks.get(usize::from(rule.target), usize::from(other.target))
            || self.is_uneven(rule, other)
    }

    // Marks the children in which two rules differ, if the rules tell them apart; whether the pair is new.
    pub(crate) fn compare(
        &self,
        rule: &Rule<W>,
        other: &Rule<W>,
        marks: &mut PairTable<bool>,
    ) -> bool
        requires { (ContainsAt (automaton_of W.Kind.stands self.now.live.now.table).rules (transition W.Kind.stands (ranks_in self.now.live.now.table.shape.now) rule.now)) × ((ContainsAt (automaton_of W.Kind.stands self.now.live.now.table).rules (transition W.Kind.stands (ranks_in self.now.live.now.table.shape.now) other.now)) × (keeps (live_in self.now.live.now.life.now) (transition W.Kind.stands (ranks_in self.now.live.now.table.shape.now) rule.now) ≡ true)) }
        ensures { Swept W.Kind.weights (automaton_of W.Kind.stands self.now.live.now.table) (live_in self.now.live.now.life.now) (round_in W.Kind.stands W.Kind.weights self.now.factors) (Compared W.Kind.weights (automaton_of W.Kind.stands self.now.live.now.table) (live_in self.now.live.now.life.now) (round_in W.Kind.stands W.Kind.weights self.now.factors) (transition W.Kind.stands (ranks_in self.now.live.now.table.shape.now) rule.now) (transition W.Kind.stands (ranks_in self.now.live.now.table.shape.now) other.now)) marks.old marks.new result }
    {
        let Some(place) = self.faced(rule, other) else {
            return false;
        };
        let p = usize::from(rule.left.children[place]);
        let q = usize::from(other.left.children[place]);
        if marks.get(p, q) {
            return false;
        }
        if !self.tells(rule, other, marks) {
            return false;
        }
        marks.mark_both(p, q);
        true
    }
}
