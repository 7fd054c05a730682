// Adding an entry to the entries of a work list.
ghost use Rattle.std.specs.Prelude.{◌≡◌, ◌+◌, ◌<◌, [], ◌∷◌, ◌++◌, map, length, take, drop, Some, None};
ghost use Rattle.std.specs.Option.{option_map};
ghost use Rattle.std.specs.List.{slice_get};
ghost use Rattle.automata.specs.Runs.{step};
ghost use Rattle.trees.specs.Lists.{Good, children_of};
ghost use Rattle.rules.specs.Shapes.{ranks_in, automaton_of};
ghost use Rattle.rules.specs.declared.side.Side.TheVariants.{First, Second};
ghost use Rattle.rules.specs.Running.{at_of, run_at, row_runs};
ghost use Rattle.comparison.specs.Forest.{nodes, Forest};

use crate::two_tables::TwoTables;
use kinds::Kind;
use rules::{Place, Side, run_node};
use trees::Node;

// The place of a node, with its runs in both tables over those of the entries.
fn place_of<W: Kind>(tables: &TwoTables<W>, work: &[Place<W>], node: Node) -> Place<W>
    ensures node { result.node ≡ node }
    ensures first { option_map (at_of W.Kind.stands) result.first ≡ step W.Kind.weights (automaton_of W.Kind.stands tables.now.first) node.symbol (row_runs W.Kind.weights (map (run_at W.Kind.stands First work.now) (children_of (ranks_in tables.now.first.shape.now) node))) }
    ensures second { option_map (at_of W.Kind.stands) result.second ≡ step W.Kind.weights (automaton_of W.Kind.stands tables.now.second) node.symbol (row_runs W.Kind.weights (map (run_at W.Kind.stands Second work.now) (children_of (ranks_in tables.now.second.shape.now) node))) }
    ensures mark { result.mark ≡ None }
{
    Place {
        node,
        first: run_node(&tables.first, &node, work, Side::First),
        second: run_node(&tables.second, &node, work, Side::Second),
        mark: None,
    }
}

// Adds a node behind the first `len` entries, with its runs in both tables.
pub fn plant<W: Kind>(tables: &TwoTables<W>, work: &mut [Place<W>], len: usize, node: Node)
    requires { (len < length work.old) × (Good (ranks_in tables.now.first.shape.now) len node) }
    ensures grown { ranks_in tables.now.first.shape.now ≡ ranks_in tables.now.second.shape.now → Forest W.Kind.weights W.Kind.stands (automaton_of W.Kind.stands tables.now.first) (automaton_of W.Kind.stands tables.now.second) work.old len → Forest W.Kind.weights W.Kind.stands (automaton_of W.Kind.stands tables.now.first) (automaton_of W.Kind.stands tables.now.second) work.new (len + 1) }
    ensures nodes { nodes work.new (len + 1) ≡ nodes work.old len ++ node ∷ [] }
    ensures mark { option_map (λ p. p.mark) (slice_get work.new len) ≡ Some None }
    ensures before { take len work.new ≡ take len work.old }
    ensures beyond { drop (len + 1) work.new ≡ drop (len + 1) work.old }
{
    work[len] = place_of(tables, work, node);
}
