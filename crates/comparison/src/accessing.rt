// Planting access trees: for every state that is reached, a tree that runs to it.
ghost use Rattle.std.specs.Prelude.{◌+◌, ◌≤◌, length};
ghost use Rattle.rules.specs.Shapes.{automaton_of};
ghost use Rattle.comparison.specs.Access.{Prepared, Accessed};

use crate::access::Access;
use crate::planting::plant;
use crate::sides::{node_over, rule_at};
use crate::two_tables::TwoTables;
use kinds::Kind;
use liveness::Reach;
use rules::{Place, Side};

// Adds an entry for each state that is reached on one side, by the rule that reached it first over the entries of its children.
pub fn plant_access<W: Kind>(
    tables: &TwoTables<W>,
    side: Side,
    reach: &Reach,
    work: &mut [Place<W>],
    len: usize,
) -> Access
    requires { (Prepared W.Kind.weights W.Kind.stands (automaton_of W.Kind.stands tables.now.first) (automaton_of W.Kind.stands tables.now.second) side reach.now work.old len) × (len + reach.now.count ≤ length work.old) }
    ensures { Accessed W.Kind.weights W.Kind.stands (automaton_of W.Kind.stands tables.now.first) (automaton_of W.Kind.stands tables.now.second) side reach.now work.old len work.new result }
{
    let table = tables.on(side);
    let mut entry = [0; 48];
    for (i, state) in reach.states().iter().enumerate() {
        let rule = rule_at(&table, reach.rule(*state));
        let node = node_over(table.shape, &rule.left, &entry);
        plant(tables, work, len + i, node);
        entry[*state] = len + i;
    }
    Access {
        entry,
        len: len + reach.len(),
    }
}
