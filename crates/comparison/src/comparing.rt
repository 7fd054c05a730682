// Comparing two tables: whether every tree weighs alike in both, and a tree that does not.
ghost use Rattle.std.specs.Prelude.{◌≡◌, ◌+◌, ◌*◌, ◌<◌, ◌≤◌, ◌⊎◌, length, take, Decides};
ghost use Rattle.trees.specs.Refusals.{Answers};
ghost use Rattle.rules.specs.Shapes.{ranks_in, states_in, automaton, automaton_of};
ghost use Rattle.comparison.specs.Surveying.{Matched};
ghost use Rattle.comparison.specs.Witnesses.{places_needed};
ghost use Rattle.comparison.specs.Comparing.{compare_tests, Compared, Compares};

use crate::alphabets::share_alphabet;
use crate::comparison::Comparison;
use crate::soundness::is_sound;
use crate::two_tables::TwoTables;
use crate::witnesses::find_witness;
use crate::writing::write_tree;
use kinds::Kind;
use rules::{Place, Rule, Shape, Table};
use trees::{Node, Refusal};

// Compares two sound tables over one alphabet.
fn compare_sound<W: Kind>(
    tables: &TwoTables<W>,
    list: &mut [Node],
    work: &mut [Place<W>],
) -> Comparison
    requires matched { Matched (automaton_of W.Kind.stands tables.now.first) (automaton_of W.Kind.stands tables.now.second) }
    requires list_room { places_needed (automaton_of W.Kind.stands tables.now.first) (automaton_of W.Kind.stands tables.now.second) ≤ length list.old }
    requires work_room { places_needed (automaton_of W.Kind.stands tables.now.first) (automaton_of W.Kind.stands tables.now.second) ≤ length work.old }
    ensures { Compared W.Kind.weights (automaton_of W.Kind.stands tables.now.first) (automaton_of W.Kind.stands tables.now.second) list.old list.new result }
{
    match find_witness(tables, work) {
        None => Comparison::Same,
        Some(top) => Comparison::Different {
            entries: write_tree(tables.first.shape, work, top, list),
        },
    }
}

// Compares two tables over one alphabet. Of a table that is not sound nothing is said.
fn compare_alike<W: Kind>(
    tables: &TwoTables<W>,
    list: &mut [Node],
    work: &mut [Place<W>],
) -> Comparison
    requires same { ranks_in tables.now.first.shape.now ≡ ranks_in tables.now.second.shape.now }
    requires list_room { places_needed (automaton_of W.Kind.stands tables.now.first) (automaton_of W.Kind.stands tables.now.second) ≤ length list.old }
    requires work_room { places_needed (automaton_of W.Kind.stands tables.now.first) (automaton_of W.Kind.stands tables.now.second) ≤ length work.old }
    ensures { Compares W.Kind.weights (automaton_of W.Kind.stands tables.now.first) (automaton_of W.Kind.stands tables.now.second) list.old list.new result }
{
    if is_sound(&tables.first) && is_sound(&tables.second) {
        compare_sound(tables, list, work)
    } else {
        Comparison::Same
    }
}

// How many places the two lists need.
fn places_for<W: Kind>(tables: &TwoTables<W>) -> usize
    ensures { result ≡ 2 * ((states_in tables.now.first.shape.now + 1) * (states_in tables.now.second.shape.now + 1)) }
{
    2 * ((tables.first.shape.states() + 1) * (tables.second.shape.states() + 1))
}

// Whether one of two lists of these lengths is too short.
fn is_short(list: usize, work: usize, needed: usize) -> bool
    ensures { Decides result ((list < needed) ⊎ (work < needed)) }
{
    list < needed || work < needed
}

// Compares two tables.
fn compare_tables<W: Kind>(
    tables: &TwoTables<W>,
    list: &mut [Node],
    work: &mut [Place<W>],
) -> Result<Comparison, Refusal>
    ensures { Answers (compare_tests (automaton_of W.Kind.stands tables.now.first) (automaton_of W.Kind.stands tables.now.second) (length list.old) (length work.old)) (Compares W.Kind.weights (automaton_of W.Kind.stands tables.now.first) (automaton_of W.Kind.stands tables.now.second) list.old list.new) ((list.new ≡ list.old) × (work.new ≡ work.old)) result }
{
    if !share_alphabet(tables) {
        return Err(Refusal::Alphabets);
    }
    if is_short(list.len(), work.len(), places_for(tables)) {
        return Err(Refusal::Short);
    }
    Ok(compare_alike(tables, list, work))
}

// Compares the tables of the first rules of two memories, which stay as they are.
pub fn compare<W: Kind>(
    first: &Shape,
    first_memory: &mut [Rule<W>],
    first_count: usize,
    second: &Shape,
    second_memory: &mut [Rule<W>],
    second_count: usize,
    list: &mut [Node],
    work: &mut [Place<W>],
) -> Result<Comparison, Refusal>
    ensures answer { Answers (compare_tests (automaton W.Kind.stands first.now (take first_count first_memory.old)) (automaton W.Kind.stands second.now (take second_count second_memory.old)) (length list.old) (length work.old)) (Compares W.Kind.weights (automaton W.Kind.stands first.now (take first_count first_memory.old)) (automaton W.Kind.stands second.now (take second_count second_memory.old)) list.old list.new) ((list.new ≡ list.old) × (work.new ≡ work.old)) result }
    ensures same_first { first_memory.new ≡ first_memory.old }
    ensures same_second { second_memory.new ≡ second_memory.old }
{
    let tables = TwoTables {
        first: Table::of_first(first, first_memory, first_count),
        second: Table::of_first(second, second_memory, second_count),
    };
    compare_tables(&tables, list, work)
}
