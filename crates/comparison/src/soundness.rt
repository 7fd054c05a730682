// Whether rules are sound: their symbols and states are the shape's, and no two have one left side.
ghost use Rattle.std.specs.Prelude.{◌≡◌, ◌<◌, map, length, is_some, Decides};
ghost use Rattle.std.specs.List.{AllByRecursion};
ghost use Rattle.automata.specs.Automata.{find, Within, Sound};
ghost use Rattle.rules.specs.Shapes.{ranks_in, states_in, children_in, transition, automaton_of};
ghost use Rattle.comparison.specs.Soundness.{Next};

use kinds::Kind;
use rules::{LeftSide, Rule, Shape, Table, rule_for};

// Whether the symbol and the states of a left side are those of the shape.
fn is_left_within(shape: &Shape, left: &LeftSide) -> bool
    ensures within { Decides result ((left.now.symbol < length (ranks_in shape.now)) × AllByRecursion (λ q. q < states_in shape.now) (children_in shape.now left.now)) }
    ensures four { length left.now.children ≡ 4 }
{
    usize::from(left.symbol) < shape.alphabet().len()
        && shape
            .children(left)
            .iter()
            .all(|state| usize::from(*state) < shape.states())
}

// Whether the symbol and the states of a rule are those of the shape.
fn is_within<W: Kind>(shape: &Shape, rule: &Rule<W>) -> bool
    ensures { Decides result (Within (ranks_in shape.now) (states_in shape.now) (transition W.Kind.stands (ranks_in shape.now) rule.now)) }
{
    usize::from(rule.target) < shape.states() && is_left_within(shape, &rule.left)
}

// Whether one of the rules has the left side of this one.
fn is_taken<W: Kind>(shape: &Shape, rules: &[Rule<W>], rule: &Rule<W>) -> bool
    ensures { result ≡ is_some (find (map (transition W.Kind.stands (ranks_in shape.now)) rules.now) rule.now.left.symbol (children_in shape.now rule.now.left)) }
{
    let symbol = usize::from(rule.left.symbol);
    rule_for(rules, symbol, &rule.left.states()[..shape.rank(symbol)]).is_some()
}

// Whether a rule may stand behind these.
fn is_next<W: Kind>(shape: &Shape, rules: &[Rule<W>], rule: &Rule<W>) -> bool
    ensures { Decides result (Next (ranks_in shape.now) (states_in shape.now) (map (transition W.Kind.stands (ranks_in shape.now)) rules.now) (transition W.Kind.stands (ranks_in shape.now) rule.now)) }
{
    is_within(shape, rule) && !is_taken(shape, rules, rule)
}

// Whether the rules of a table are sound.
pub fn is_sound<W: Kind>(table: &Table<W>) -> bool
    ensures { Decides result (Sound (automaton_of W.Kind.stands table.now)) }
{
    for (i, rule) in table.rules.iter().enumerate() {
        if !is_next(table.shape, &table.rules[..i], rule) {
            return false;
        }
    }
    true
}
