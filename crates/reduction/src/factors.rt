// The factors that a work list holds for states, and a weight after a push by them.
ghost use Rattle.std.specs.Prelude.{◌≡◌};
ghost use Rattle.automata.specs.Pushing.{reweighed};
ghost use Rattle.rules.specs.Shapes.{ranks_in, transition};
ghost use Rattle.reduction.specs.Classes.{factor_at};

use kinds::Kind;
use rules::{Place, Rule, Shape, Side, pushed_weight, run_of};

// The factor of a state: the weight of the run in its place, one if there is none.
pub(crate) fn factor<W: Kind>(work: &[Place<W>], state: usize) -> W
    ensures { W.Kind.stands result ≡ factor_at W.Kind.stands W.Kind.weights work.now state }
{
    match run_of(work, Side::First, state) {
        Some(run) => run.weight,
        None => W::one(),
    }
}

// The weight of a rule after the push by the factors in the work list.
pub(crate) fn weight_pushed<W: Kind>(shape: &Shape, rule: &Rule<W>, work: &[Place<W>]) -> W
    ensures { W.Kind.stands result ≡ (reweighed W.Kind.weights (factor_at W.Kind.stands W.Kind.weights work.now) (transition W.Kind.stands (ranks_in shape.now) rule.now)).weight }
{
    let factor_of = |q: usize|
        ensures { W.Kind.stands result ≡ factor_at W.Kind.stands W.Kind.weights work.entry.now q }
    { factor(work, q) };
    pushed_weight(shape, rule, &factor_of)
}
