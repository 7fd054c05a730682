// From the end of a search to an entry whose tree two tables weigh differently.
ghost use Rattle.std.specs.Prelude.{◌+◌, ◌<◌, ◌≤◌, length, Some};
ghost use Rattle.rules.specs.Shapes.{states_in, automaton_of};
ghost use Rattle.rules.specs.declared.side.Side.TheVariants.{First};
ghost use Rattle.comparison.specs.declared.exploring_outcome.Outcome.TheVariants.{Lone};
ghost use Rattle.comparison.specs.Access.{sided};
ghost use Rattle.comparison.specs.Forest.{Forest};
ghost use Rattle.comparison.specs.Scanning.{runs_in, live_in, two_of};
ghost use Rattle.comparison.specs.Exploring.{TwoRatios, Ends};
ghost use Rattle.comparison.specs.Surveying.{Matched, Known};
ghost use Rattle.comparison.specs.Witnesses.{places_needed, Found, Lonely, Searched, Witnessed};

use crate::climbing::climb;
use crate::differing::differs;
use crate::exploring::explore;
use crate::exploring_end::Exploring;
use crate::exploring_outcome::Outcome;
use crate::scan_tables::LiveTables;
use crate::survey::Survey;
use crate::surveying::survey_side;
use crate::two_tables::TwoTables;
use kinds::Kind;
use rules::{Place, Side};

// Climbs from an entry whose tree has a live state on this side only: the tree of the top weighs something there, and nothing on the other side.
fn lone_top<W: Kind>(
    tables: &TwoTables<W>,
    side: Side,
    survey: &Survey,
    work: &mut [Place<W>],
    len: usize,
    entry: usize,
) -> usize
    requires matched { Matched (automaton_of W.Kind.stands tables.now.first) (automaton_of W.Kind.stands tables.now.second) }
    requires forest { Forest W.Kind.weights W.Kind.stands (automaton_of W.Kind.stands tables.now.first) (automaton_of W.Kind.stands tables.now.second) work.old len }
    requires known { Known W.Kind.stands (automaton_of W.Kind.stands tables.now.first) (automaton_of W.Kind.stands tables.now.second) side survey.now work.old len }
    requires below { entry < len }
    requires room { len + (sided side (automaton_of W.Kind.stands tables.now.first) (automaton_of W.Kind.stands tables.now.second)).states ≤ length work.old + 1 }
    requires lonely { Lonely W.Kind.weights W.Kind.stands (automaton_of W.Kind.stands tables.now.first) (automaton_of W.Kind.stands tables.now.second) side survey.now.life work.old entry }
    ensures { Found W.Kind.weights W.Kind.stands (automaton_of W.Kind.stands tables.now.first) (automaton_of W.Kind.stands tables.now.second) (len + (sided side (automaton_of W.Kind.stands tables.now.first) (automaton_of W.Kind.stands tables.now.second)).states) work.new result }
{
    climb(tables, side, survey, work, len, entry).top
}

// Climbs on the first side from two entries with one pair of states and two ratios: the two tables weigh the tree of one of the tops differently.
fn uneven_top<W: Kind>(
    tables: &TwoTables<W>,
    survey: &Survey,
    work: &mut [Place<W>],
    len: usize,
    entry: usize,
    other: usize,
) -> usize
    requires matched { Matched (automaton_of W.Kind.stands tables.now.first) (automaton_of W.Kind.stands tables.now.second) }
    requires forest { Forest W.Kind.weights W.Kind.stands (automaton_of W.Kind.stands tables.now.first) (automaton_of W.Kind.stands tables.now.second) work.old len }
    requires known { Known W.Kind.stands (automaton_of W.Kind.stands tables.now.first) (automaton_of W.Kind.stands tables.now.second) First survey.now work.old len }
    requires below { entry < len }
    requires other_below { other < len }
    requires room { len + states_in tables.now.first.shape.now + states_in tables.now.first.shape.now ≤ length work.old + 1 }
    requires ratios { TwoRatios W.Kind.weights (live_in survey.now.life) (runs_in W.Kind.stands work.old) entry other }
    ensures { Found W.Kind.weights W.Kind.stands (automaton_of W.Kind.stands tables.now.first) (automaton_of W.Kind.stands tables.now.second) (len + states_in tables.now.first.shape.now + states_in tables.now.first.shape.now) work.new result }
{
    let one = climb(tables, Side::First, survey, work, len, entry);
    let two = climb(tables, Side::First, survey, work, one.len, other);
    if differs(tables, work, one.top) {
        one.top
    } else {
        two.top
    }
}

// Climbs on the side where the tree of the entry has a live state.
fn settle_lone<W: Kind>(
    tables: &TwoTables<W>,
    one: &Survey,
    two: &Survey,
    work: &mut [Place<W>],
    len: usize,
    side: Side,
    entry: usize,
) -> usize
    requires searched { Searched W.Kind.weights W.Kind.stands (automaton_of W.Kind.stands tables.now.first) (automaton_of W.Kind.stands tables.now.second) one.now two.now work.old len }
    requires ends { Ends W.Kind.weights (two_of W.Kind.stands tables.now.first.shape.now tables.now.first.rules.now one.now.life tables.now.second.shape.now tables.now.second.rules.now two.now.life) (runs_in W.Kind.stands work.old) len (Some (Lone side entry)) }
    ensures { Found W.Kind.weights W.Kind.stands (automaton_of W.Kind.stands tables.now.first) (automaton_of W.Kind.stands tables.now.second) (places_needed (automaton_of W.Kind.stands tables.now.first) (automaton_of W.Kind.stands tables.now.second)) work.new result }
{
    match side {
        Side::First => lone_top(tables, Side::First, one, work, len, entry),
        Side::Second => lone_top(tables, Side::Second, two, work, len, entry),
    }
}

// The entry whose tree tells the two tables apart as the search ended, if there is one.
fn settle<W: Kind>(
    tables: &TwoTables<W>,
    one: &Survey,
    two: &Survey,
    work: &mut [Place<W>],
    end: Exploring,
) -> Option<usize>
    requires searched { Searched W.Kind.weights W.Kind.stands (automaton_of W.Kind.stands tables.now.first) (automaton_of W.Kind.stands tables.now.second) one.now two.now work.old end.len }
    requires ends { Ends W.Kind.weights (two_of W.Kind.stands tables.now.first.shape.now tables.now.first.rules.now one.now.life tables.now.second.shape.now tables.now.second.rules.now two.now.life) (runs_in W.Kind.stands work.old) end.len end.outcome }
    ensures { Witnessed W.Kind.weights W.Kind.stands (automaton_of W.Kind.stands tables.now.first) (automaton_of W.Kind.stands tables.now.second) work.new result }
{
    let outcome = end.outcome?;
    match outcome {
        Outcome::Differs { entry } => Some(entry),
        Outcome::Lone { side, entry } => {
            Some(settle_lone(tables, one, two, work, end.len, side, entry))
        }
        Outcome::Uneven { entry, other } => {
            Some(uneven_top(tables, one, work, end.len, entry, other))
        }
    }
}

// An entry whose tree tells the two tables apart, if there is one.
pub fn find_witness<W: Kind>(tables: &TwoTables<W>, work: &mut [Place<W>]) -> Option<usize>
    requires matched { Matched (automaton_of W.Kind.stands tables.now.first) (automaton_of W.Kind.stands tables.now.second) }
    requires room { places_needed (automaton_of W.Kind.stands tables.now.first) (automaton_of W.Kind.stands tables.now.second) ≤ length work.old }
    ensures { Witnessed W.Kind.weights W.Kind.stands (automaton_of W.Kind.stands tables.now.first) (automaton_of W.Kind.stands tables.now.second) work.new result }
{
    let one = survey_side(tables, Side::First, work, 0);
    let two = survey_side(tables, Side::Second, work, one.access.len);
    let live = LiveTables {
        tables: *tables,
        first_life: &one.life,
        second_life: &two.life,
    };
    let end = explore(&live, work, two.access.len);
    settle(tables, &one, &two, work, end)
}
