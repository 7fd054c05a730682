// The rules of a table, and nodes over the entries of states.
ghost use Rattle.std.specs.Prelude.{◌≡◌, ◌<◌, map, length, Some, slice_index, slice_set};
ghost use Rattle.std.specs.List.{slice_get};
ghost use Rattle.rules.specs.Shapes.{ranks_in, children_in};
ghost use Rattle.comparison.specs.Access.{NodeOver};

use kinds::Kind;
use rules::{LeftSide, Rule, Shape, Table};
use trees::Node;

// The number for a state, and 0 past the last.
pub fn number_of(numbers: &[usize; 48], state: usize) -> usize
    ensures { result ≡ slice_index numbers.now state }
{
    numbers.get(state).copied().unwrap_or(0)
}

// The rule at a place of a table.
pub fn rule_at<W: Kind>(table: &Table<W>, at: usize) -> Rule<W>
    requires { at < length table.now.rules.now }
    ensures { slice_get table.now.rules.now at ≡ Some result }
{
    table.rules[at]
}

// The node of a left side over the entries of its states.
pub fn node_over(shape: &Shape, left: &LeftSide, entry: &[usize; 48]) -> Node
    ensures { NodeOver (ranks_in shape.now) left.now.symbol (map (λ q. slice_index entry.now q) (children_in shape.now left.now)) result }
{
    let mut children = [0; 4];
    for (k, child) in shape.children(left).iter().enumerate() {
        children[k] = number_of(entry, usize::from(*child));
    }
    Node {
        symbol: usize::from(left.symbol),
        children,
    }
}

// The node with another entry in a child place.
pub fn with_child(node: &Node, place: usize, entry: usize) -> Node
    requires { place < 4 }
    ensures { result ≡ record { symbol = node.now.symbol; children = slice_set node.now.children place entry } }
{
    let mut children = node.children;
    children[place] = entry;
    Node {
        symbol: node.symbol,
        children,
    }
}
