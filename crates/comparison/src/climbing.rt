// Climbing from an entry to one whose tree ends in an accepting state.
ghost use Rattle.rules.specs.Shapes.{automaton_of};
ghost use Rattle.liveness.specs.Listings.{Flagged, flags_of};
ghost use Rattle.comparison.specs.Access.{Prepared};
ghost use Rattle.comparison.specs.Climbing.{Climbable, EndsLive, Climbs, ClimbsOn};

use crate::climbed::Climbed;
use crate::planting::plant;
use crate::sides::{node_over, rule_at, with_child};
use crate::survey::Survey;
use crate::two_tables::TwoTables;
use kinds::Kind;
use rules::{Place, Side, run_of};

// Climbs from an entry in a live state: adds the node of the rule that leads it on, over the entry and the access entries of the other children, and goes on
// from there until an accepting state.
fn climb_from<W: Kind>(
    tables: &TwoTables<W>,
    side: Side,
    survey: &Survey,
    work: &mut [Place<W>],
    len: usize,
    entry: usize,
    state: usize,
) -> Climbed
    requires { (Prepared W.Kind.weights W.Kind.stands (automaton_of W.Kind.stands tables.now.first) (automaton_of W.Kind.stands tables.now.second) side survey.now.reach work.old len) × ((Climbable W.Kind.stands (automaton_of W.Kind.stands tables.now.first) (automaton_of W.Kind.stands tables.now.second) side survey.now.reach survey.now.life survey.now.access work.old len entry) × (Flagged (flags_of survey.now.life) state)) }
    ensures { Climbs W.Kind.weights W.Kind.stands (automaton_of W.Kind.stands tables.now.first) (automaton_of W.Kind.stands tables.now.second) side survey.now.life survey.now.access work.old len entry state work.new result }
{
    let table = tables.on(side);
    let mut top = entry;
    let mut end = len;
    let mut at = state;
    while !table.shape.is_accepting(at) {
        let lead = survey.life.lead(at);
        let rule = rule_at(&table, lead.rule);
        let row = node_over(table.shape, &rule.left, &survey.access.entry);
        let node = with_child(&row, lead.place, top);
        plant(tables, work, end, node);
        top = end;
        end += 1;
        at = usize::from(rule.target);
    }
    Climbed { top, len: end }
}

// Climbs from an entry whose run on one side ends in a live state.
pub fn climb<W: Kind>(
    tables: &TwoTables<W>,
    side: Side,
    survey: &Survey,
    work: &mut [Place<W>],
    len: usize,
    entry: usize,
) -> Climbed
    requires { (Prepared W.Kind.weights W.Kind.stands (automaton_of W.Kind.stands tables.now.first) (automaton_of W.Kind.stands tables.now.second) side survey.now.reach work.old len) × ((Climbable W.Kind.stands (automaton_of W.Kind.stands tables.now.first) (automaton_of W.Kind.stands tables.now.second) side survey.now.reach survey.now.life survey.now.access work.old len entry) × (EndsLive W.Kind.stands side survey.now.life work.old entry)) }
    ensures { ClimbsOn W.Kind.weights W.Kind.stands (automaton_of W.Kind.stands tables.now.first) (automaton_of W.Kind.stands tables.now.second) side survey.now.life survey.now.access work.old len entry work.new result }
{
    match run_of(work, side, entry) {
        None => Climbed { top: entry, len },
        Some(run) => climb_from(tables, side, survey, work, len, entry, run.state),
    }
}
