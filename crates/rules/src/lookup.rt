// Looking up a rule by its left side.
ghost use Rattle.std.specs.Prelude.{◌≡◌, ℕ, ◌<◌, List, map, length, take, slice_index_or};
ghost use Rattle.std.specs.Option.{option_map, option_copied};
ghost use Rattle.automata.specs.Trees.{rank};
ghost use Rattle.automata.specs.Automata.{same_list, find as find_rule};
ghost use Rattle.std.specs.List.{position, find as first_passing};
ghost use Rattle.rules.specs.Lookup.{has_left};
ghost use Rattle.rules.specs.Shapes.{transition};

use crate::left_side::LeftSide;
use crate::rule::Rule;
use kinds::Kind;

// Whether the first places hold just these states.
fn begins_with(places: &[u8; 4], states: &[usize]) -> bool
    ensures { result ≡ same_list (take (length states.now) places.now) states.now }
{
    states.len() <= 4
        && places
            .iter()
            .zip(states)
            .all(|(place, state)| usize::from(*place) == *state)
}

// Whether the left side is `symbol(children)`.
pub fn is_left(left: &LeftSide, symbol: usize, children: &[usize]) -> bool
    ensures { result ≡ has_left symbol children.now left.now }
{
    usize::from(left.symbol) == symbol && begins_with(&left.children, children)
}

// The place of the first rule with the left side `symbol(children)`.
pub fn find<W>(rules: &[Rule<W>], symbol: usize, children: &[usize]) -> Option<usize>
    ensures { result ≡ position (λ rule. has_left symbol children.now rule.left) rules.now }
{
    rules
        .iter()
        .position(|rule| is_left(&rule.left, symbol, children))
}

// The first rule with a left side that begins so.
fn first_with<'a, W>(rules: &'a [Rule<W>], symbol: usize, children: &[usize]) -> Option<&'a Rule<W>>
    ensures { option_copied result ≡ first_passing (λ rule. has_left symbol children.now rule.left) rules.now }
{
    rules
        .iter()
        .find(|rule| is_left(&rule.left, symbol, children))
}

// The first rule with the left side `symbol(children)`, for as many children as the symbol's rank.
pub fn rule_for<W: Kind>(rules: &[Rule<W>], symbol: usize, children: &[usize]) -> Option<Rule<W>>
    ensures { (ranks : List ℕ) → length children.now ≡ rank ranks symbol → option_map (transition W.Kind.stands ranks) result ≡ find_rule (map (transition W.Kind.stands ranks) rules.now) symbol children.now }
{
    first_with(rules, symbol, children).copied()
}
