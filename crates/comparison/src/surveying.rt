// Surveying the table on one side.
ghost use Rattle.std.specs.Prelude.{◌+◌, ◌≤◌, length};
ghost use Rattle.rules.specs.Shapes.{automaton_of};
ghost use Rattle.comparison.specs.Access.{sided};
ghost use Rattle.comparison.specs.Forest.{Forest};
ghost use Rattle.comparison.specs.Surveying.{Matched, Surveyed};

use crate::accessing::plant_access;
use crate::survey::Survey;
use crate::two_tables::TwoTables;
use kinds::Kind;
use liveness::{find_live, find_reached};
use rules::{Place, Side};

// Surveys one side, and adds an entry for each state that a tree has there behind the first `len` entries.
pub fn survey_side<W: Kind>(
    tables: &TwoTables<W>,
    side: Side,
    work: &mut [Place<W>],
    len: usize,
) -> Survey
    requires matched { Matched (automaton_of W.Kind.stands tables.now.first) (automaton_of W.Kind.stands tables.now.second) }
    requires forest { Forest W.Kind.weights W.Kind.stands (automaton_of W.Kind.stands tables.now.first) (automaton_of W.Kind.stands tables.now.second) work.old len }
    requires room { len + (sided side (automaton_of W.Kind.stands tables.now.first) (automaton_of W.Kind.stands tables.now.second)).states ≤ length work.old }
    ensures { Surveyed W.Kind.weights W.Kind.stands (automaton_of W.Kind.stands tables.now.first) (automaton_of W.Kind.stands tables.now.second) side work.old len work.new result }
{
    let table = tables.on(side);
    let reach = find_reached(&table);
    let life = find_live(&table, &reach);
    let access = plant_access(tables, side, &reach, work, len);
    Survey {
        reach,
        life,
        access,
    }
}
