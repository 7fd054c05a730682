// Finding the reachable states, from the leaves up.
ghost use Rattle.std.specs.Prelude.{◌≡◌, ◌<◌, ◌≤◌, true, false};
ghost use Rattle.rules.specs.Shapes.{states_in, children_in, automaton_of};
ghost use Rattle.liveness.specs.Listings.{flags_of, found_too, Listed};
ghost use Rattle.liveness.specs.Reaching.{Reaching, Reached, Settled, Tried};

use crate::found::Found;
use crate::reach::Reach;
use kinds::Kind;
use rules::{LeftSide, Shape, Table};

// Adds a state, reached by the rule at this place.
fn add_reached(found: &mut Reach, state: usize, place: usize)
    requires { (state < 48) × (found.old.count < 48) }
    ensures { found.new ≡ found_too found.old state place }
{
    found.add(state, place);
}

// Adds the target of a rule if it is a state and new, and all children of the rule are reached.
fn try_rule(shape: &Shape, left: &LeftSide, target: usize, place: usize, found: &mut Reach)
    requires { Listed (states_in shape.now) (flags_of found.old) found.old.order found.old.count }
    ensures { Tried (states_in shape.now) (children_in shape.now left.now) target place found.old found.new }
{
    if target < shape.states() && !found.has(target) && found.has_all(shape.children(left)) {
        add_reached(found, target, place);
    }
}

// Tries every rule once, and says whether a state was added.
fn pass_up<W: Kind>(table: &Table<W>, found: &mut Reach) -> bool
    requires { Reaching (automaton_of W.Kind.stands table.now) found.old }
    ensures reaching { Reaching (automaton_of W.Kind.stands table.now) found.new }
    ensures more { result ≡ true → found.old.count < found.new.count }
    ensures rest { result ≡ false → Settled (automaton_of W.Kind.stands table.now) found.new }
{
    let before = found.count;
    for (i, rule) in table.rules.iter().enumerate() {
        try_rule(table.shape, &rule.left, usize::from(rule.target), i, found);
    }
    before < found.count
}

// The reachable states.
pub fn find_reached<W: Kind>(table: &Table<W>) -> Reach
    ensures { Reached (automaton_of W.Kind.stands table.now) result }
{
    let mut found = Found::none();
    while pass_up(table, &mut found) {}
    found
}
