// The reduction of a table.
ghost use Rattle.std.specs.Prelude.{◌≡◌, ◌<◌, ◌≤◌, [], ◌∷◌, length, take, drop};
ghost use Rattle.automata.specs.Automata.{Sound};
ghost use Rattle.trees.specs.declared.refusal.Refusal.TheVariants.{Short};
ghost use Rattle.trees.specs.Refusals.{when, Answers};
ghost use Rattle.rules.specs.Shapes.{states_in, automaton};
ghost use Rattle.reduction.specs.Reducing.{ReducedTo};

use crate::analysing::analyse;
use crate::merging::merge_rules;
use crate::reduced::Reduced;
use crate::shaping::merged_shape;
use kinds::Kind;
use rules::{Place, Rule, Shape, Table};
use trees::Refusal;

// Reduces a table whose rules are all of these; those that are left stand in front.
fn reduce_rules<W: Kind>(shape: &Shape, rules: &mut [Rule<W>], work: &mut [Place<W>]) -> Reduced
    ensures few { result.count ≤ length rules.old }
    ensures reduced { states_in shape.now ≤ length work.old → Sound (automaton W.Kind.stands shape.now rules.old) → ReducedTo W.Kind.stands W.Kind.weights (automaton W.Kind.stands shape.now rules.old) result rules.new }
{
    let classes = analyse(&Table { shape, rules }, work);
    let count = merge_rules(shape, rules, &classes, work);
    Reduced {
        shape: merged_shape(shape, &classes),
        count,
    }
}

// Reduces the table of the first `count` rules of the memory: merges its equivalent live states and drops the others. Answers the new shape and the
// number of rules left.
pub fn reduce<W: Kind>(
    shape: &Shape,
    memory: &mut [Rule<W>],
    count: usize,
    work: &mut [Place<W>],
) -> Result<Reduced, Refusal>
    ensures answer { Answers (when (length work.old < states_in shape.now) Short ∷ []) (λ x. Sound (automaton W.Kind.stands shape.now (take count memory.old)) → ReducedTo W.Kind.stands W.Kind.weights (automaton W.Kind.stands shape.now (take count memory.old)) x memory.new) ((memory.new ≡ memory.old) × (work.new ≡ work.old)) result }
    ensures length { length memory.new ≡ length memory.old }
    ensures beyond { drop count memory.new ≡ drop count memory.old }
{
    if work.len() < shape.states() {
        return Err(Refusal::Short);
    }
    let used = count.min(memory.len());
    Ok(reduce_rules(shape, &mut memory[..used], work))
}
