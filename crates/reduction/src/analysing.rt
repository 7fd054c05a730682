// The analysis of a table: which of its states are live and equivalent, and by which factors.
ghost use Rattle.std.specs.Prelude.{◌≤◌, length};
ghost use Rattle.automata.specs.Automata.{Sound};
ghost use Rattle.rules.specs.Shapes.{states_in, automaton_of};
ghost use Rattle.reduction.specs.Classes.{grouping};
ghost use Rattle.reduction.specs.Partitions.{Partition};

use crate::chooser::Chooser;
use crate::classes::Classes;
use crate::live_table::LiveTable;
use crate::marking::{first_marks, second_marks};
use crate::numbering::number_classes;
use kinds::Kind;
use liveness::{find_live, find_reached};
use rules::{Place, Table};

// The classes of equivalent live states. The place of each in the work list holds its factor.
pub fn analyse<W: Kind>(table: &Table<W>, work: &mut [Place<W>]) -> Classes
    ensures { Sound (automaton_of W.Kind.stands table.now) → states_in table.now.shape.now ≤ length work.old → Partition W.Kind.weights (automaton_of W.Kind.stands table.now) (grouping W.Kind.stands W.Kind.weights result work.new) }
{
    let reach = find_reached(table);
    let life = find_live(table, &reach);
    let live = LiveTable {
        table: *table,
        life: &life,
    };
    let mut marks = first_marks(&live);
    let chooser = Chooser {
        live: &live,
        marks: &marks,
    };
    chooser.choose_factors(work);
    second_marks(&live, work, &mut marks);
    number_classes(&life, table.shape.states(), &marks)
}
