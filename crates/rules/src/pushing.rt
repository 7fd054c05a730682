// Pushing weight through one state of a table.
ghost use Rattle.std.specs.Prelude.{◌≡◌, ℕ, false};
ghost use Rattle.automata.specs.Pushing.{reweighed, undone as divided};
ghost use Rattle.trees.specs.Refusals.{checks, Answers};
ghost use Rattle.rules.specs.Books.{holding};
ghost use Rattle.rules.specs.Pushing.{at_state, push_checks, Pushes};
ghost use Rattle.rules.specs.Shapes.{ranks_in, accepts_in, transition};

use crate::rule::Rule;
use crate::shape::Shape;
use kinds::Kind;
use trees::Refusal;

// The weight, times the factor if the state is the one that is pushed.
fn times_at<W: Kind>(weight: W, factor: W, state: usize, pushed: usize) -> W
    ensures { W.Kind.stands result ≡ W.Kind.weights.times (W.Kind.stands weight) (at_state W.Kind.weights pushed (W.Kind.stands factor) state) }
{
    if state == pushed {
        weight.times(factor)
    } else {
        weight
    }
}

// A weight times the factor of a state.
fn gained<W: Kind, F: Fn(usize) -> W>(weight: W, factor: &F, state: usize) -> W
    requires { F.IsAlwaysCallable factor.now }
    ensures { (f : ℕ → W.Weight) → ((q : ℕ) (v : _) → F.post factor.now q v → W.Kind.stands v ≡ f q) → W.Kind.stands result ≡ W.Kind.weights.times (W.Kind.stands weight) (f state) }
{
    weight.times(factor(state))
}

// A weight times the inverse of the factor of a state.
fn undone<W: Kind, F: Fn(usize) -> W>(weight: W, factor: &F, state: usize) -> W
    requires { F.IsAlwaysCallable factor.now }
    ensures { (f : ℕ → W.Weight) → ((q : ℕ) (v : _) → F.post factor.now q v → W.Kind.stands v ≡ f q) → W.Kind.stands result ≡ W.Kind.weights.times (W.Kind.stands weight) (W.Kind.weights.inverse (f state)) }
{
    weight.times(factor(state).inverse())
}

// A weight after `undo` at each child, which multiplies by the inverse of the factor there.
fn undone_all<W: Kind, U: Fn(W, usize) -> W>(weight: W, children: &[u8], undo: &U) -> W
    requires { U.IsAlwaysCallable undo.now }
    ensures { (f : ℕ → W.Weight) → ((w : _) (q : ℕ) (v : _) → U.post undo.now w q v → W.Kind.stands v ≡ W.Kind.weights.times (W.Kind.stands w) (W.Kind.weights.inverse (f q))) → W.Kind.stands result ≡ W.Kind.weights.times (W.Kind.stands weight) (divided W.Kind.weights f children.now) }
{
    let mut left = weight;
    for child in children {
        left = undo(left, usize::from(*child));
    }
    left
}

// The weight of a rule after a push: after `gain` at its target, which multiplies by the factor there, and `undo` at each child place.
fn reweighed_by<W: Kind, G: Fn(W, usize) -> W, U: Fn(W, usize) -> W>(
    shape: &Shape,
    rule: &Rule<W>,
    gain: &G,
    undo: &U,
) -> W
    requires { G.IsAlwaysCallable gain.now × U.IsAlwaysCallable undo.now }
    ensures { (f : ℕ → W.Weight) → ((w : _) (q : ℕ) (v : _) → G.post gain.now w q v → W.Kind.stands v ≡ W.Kind.weights.times (W.Kind.stands w) (f q)) → ((w : _) (q : ℕ) (v : _) → U.post undo.now w q v → W.Kind.stands v ≡ W.Kind.weights.times (W.Kind.stands w) (W.Kind.weights.inverse (f q))) → W.Kind.stands result ≡ (reweighed W.Kind.weights f (transition W.Kind.stands (ranks_in shape.now) rule.now)).weight }
{
    let weight = gain(rule.weight, usize::from(rule.target));
    undone_all(weight, shape.children(&rule.left), undo)
}

// The weight of a rule after a push with a factor for each state: times the factor of its target, and times the inverse of the factor at each child place.
pub fn pushed_weight<W: Kind, F: Fn(usize) -> W>(shape: &Shape, rule: &Rule<W>, factor: &F) -> W
    requires { F.IsAlwaysCallable factor.now }
    ensures { (f : ℕ → W.Weight) → ((q : ℕ) (v : _) → F.post factor.now q v → W.Kind.stands v ≡ f q) → W.Kind.stands result ≡ (reweighed W.Kind.weights f (transition W.Kind.stands (ranks_in shape.now) rule.now)).weight }
{
    let gain = |weight: W, q: usize| gained(weight, factor, q);
    let undo = |weight: W, q: usize| undone(weight, factor, q);
    reweighed_by(shape, rule, &gain, &undo)
}

// Pushes the state by the factor, whose inverse is `back`, in each of the first `count` rules of the memory.
fn push_rules<W: Kind>(
    shape: &Shape,
    memory: &mut [Rule<W>],
    count: usize,
    state: usize,
    factor: W,
    back: W,
)
    ensures { W.Kind.stands back ≡ W.Kind.weights.inverse (W.Kind.stands factor) → accepts_in shape.now state ≡ false → Pushes W.Kind.weights W.Kind.stands shape.now count state (W.Kind.stands factor) memory.old memory.new }
{
    let used = count.min(memory.len());
    let gain = |weight: W, q: usize|
        ensures { W.Kind.stands result ≡ W.Kind.weights.times (W.Kind.stands weight) (at_state W.Kind.weights state (W.Kind.stands factor) q) }
    { times_at(weight, factor, q, state) };
    let undo = |weight: W, q: usize|
        ensures { W.Kind.stands result ≡ W.Kind.weights.times (W.Kind.stands weight) (at_state W.Kind.weights state (W.Kind.stands back) q) }
    { times_at(weight, back, q, state) };
    for rule in &mut memory[..used] {
        rule.weight = reweighed_by(shape, rule, &gain, &undo);
    }
}

// Pushes a state of a table by a factor; the memory beyond its rules stays as it is, and no tree's weight moves.
pub fn push<W: Kind>(
    shape: &Shape,
    memory: &mut [Rule<W>],
    count: usize,
    state: usize,
    factor: W,
) -> Result<(), Refusal>
    ensures { Answers (checks (push_checks (holding W.Kind.stands shape.now memory.old count) state)) (λ _. Pushes W.Kind.weights W.Kind.stands shape.now count state (W.Kind.stands factor) memory.old memory.new) (memory.new ≡ memory.old) result }
{
    if state >= shape.states() {
        return Err(Refusal::State);
    }
    if shape.is_accepting(state) {
        return Err(Refusal::Accepting);
    }
    push_rules(shape, memory, count, state, factor, factor.inverse());
    Ok(())
}
