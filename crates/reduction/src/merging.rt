// The merge of a table's rules by given classes and factors, in place.
ghost use Rattle.std.specs.Prelude.{◌≡◌, ◌+◌, ◌<◌, ◌≤◌, map, length, take, if◌then◌else◌, filter, slice_set};
ghost use Rattle.std.specs.Option.{option_map};
ghost use Rattle.automata.specs.Trees.{rank};
ghost use Rattle.automata.specs.Merging.{keeps, relabelled, firsts};
ghost use Rattle.rules.specs.Shapes.{ranks_in, children_in, transition};
ghost use Rattle.reduction.specs.Classes.{grouping, member_in};
ghost use Rattle.reduction.specs.Renaming.{classes_of, renamed, taken};

use crate::classes::Classes;
use crate::factors::weight_pushed;
use kinds::Kind;
use rules::{LeftSide, Place, Rule, Shape, rule_for};

// The classes of the children of a left side, in their places, if all stay; the other places are as they were.
fn child_classes(shape: &Shape, left: &LeftSide, classes: &Classes) -> Option<[u8; 4]>
    ensures { option_map (take (rank (ranks_in shape.now) left.now.symbol)) result ≡ classes_of classes.now (children_in shape.now left.now) }
{
    let mut places = left.children;
    for (k, child) in shape.children(left).iter().enumerate() {
        places[k] = classes.class(usize::from(*child))?;
    }
    Some(places)
}

// The rule with classes for states and its weight pushed by the factors, if all its states stay.
fn merged_rule<W: Kind>(
    shape: &Shape,
    rule: &Rule<W>,
    classes: &Classes,
    work: &[Place<W>],
) -> Option<Rule<W>>
    ensures { option_map (transition W.Kind.stands (ranks_in shape.now)) result ≡ renamed W.Kind.weights (grouping W.Kind.stands W.Kind.weights classes.now work.now) (transition W.Kind.stands (ranks_in shape.now) rule.now) }
{
    let target = classes.class(usize::from(rule.target))?;
    let children = child_classes(shape, &rule.left, classes)?;
    Some(Rule {
        left: LeftSide {
            symbol: rule.left.symbol,
            children,
        },
        target,
        weight: weight_pushed(shape, rule, work),
    })
}

// Whether one of the first rules has the left side of this one.
fn is_taken<W: Kind>(shape: &Shape, rules: &[Rule<W>], count: usize, rule: &Rule<W>) -> bool
    requires { count ≤ length rules.now }
    ensures { result ≡ taken (map (transition W.Kind.stands (ranks_in shape.now)) (take count rules.now)) (transition W.Kind.stands (ranks_in shape.now) rule.now) }
{
    let symbol = usize::from(rule.left.symbol);
    let children = rule.left.states();
    rule_for(&rules[..count], symbol, &children[..shape.rank(symbol)]).is_some()
}

// Puts a rule after the first ones, unless one of them has its left side; how many there are then.
fn add_rule<W: Kind>(shape: &Shape, rules: &mut [Rule<W>], count: usize, rule: Rule<W>) -> usize
    requires { count < length rules.old }
    ensures number { result ≡ (if taken (map (transition W.Kind.stands (ranks_in shape.now)) (take count rules.old)) (transition W.Kind.stands (ranks_in shape.now) rule) then count else count + 1) }
    ensures rules { rules.new ≡ (if taken (map (transition W.Kind.stands (ranks_in shape.now)) (take count rules.old)) (transition W.Kind.stands (ranks_in shape.now) rule) then rules.old else slice_set rules.old count rule) }
{
    if is_taken(shape, rules, count, &rule) {
        return count;
    }
    rules[count] = rule;
    count + 1
}

// Merges the rules: drops those with a state that does not stay, renames and pushes the others, and keeps the first of those with one left side. The
// rules that are kept stand in front, in their order; how many they are.
pub fn merge_rules<W: Kind>(
    shape: &Shape,
    rules: &mut [Rule<W>],
    classes: &Classes,
    work: &[Place<W>],
) -> usize
    ensures few { result ≤ length rules.old }
    ensures rules { map (transition W.Kind.stands (ranks_in shape.now)) (take result rules.new) ≡ firsts (map (relabelled W.Kind.weights (grouping W.Kind.stands W.Kind.weights classes.now work.now)) (filter (keeps (member_in classes.now)) (map (transition W.Kind.stands (ranks_in shape.now)) rules.old))) }
{
    let mut count = 0;
    for i in 0..rules.len() {
        if let Some(rule) = merged_rule(shape, &rules[i], classes, work) {
            count = add_rule(shape, rules, count, rule);
        }
    }
    count
}
