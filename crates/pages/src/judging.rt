// The answer to two tables.
ghost use Rattle.std.specs.Prelude.{◌≡◌, ◌≤◌, length};
ghost use Rattle.std.specs.Option.{option_map};
ghost use Rattle.trees.specs.Lists.{IsTreeList};
ghost use Rattle.rules.specs.Weighing.{weight_said};
ghost use Rattle.tables.specs.Images.{closed_holds, SameClosed};
ghost use Rattle.pages.specs.Answering.{Least};
ghost use Rattle.pages.specs.Judging.{ByHistory, ByHistories, Faultless, Codes, TellsSame, TellsDifferent, Judges};

use crate::at::at_line;
use crate::trouble::Trouble;
use crate::work::Work;
use crate::work::calls::PLACES;
use crate::writing::{Told, write_different, write_same};
use comparison::Comparison;
use kinds::Kind;
use rules::Weighing;
use std::alloc::Global;
use tables::Closed;
use trees::Node;

// The code of the weight that is said, if one is.
fn code_of<W: Kind>(weighing: Weighing<W>) -> Option<i64>
    ensures { result ≡ option_map W.Kind.weights.code (weight_said W.Kind.stands weighing) }
{
    match weighing {
        Weighing::Weighs { weight, .. } => Some(weight.code()),
        Weighing::NoRun | Weighing::Ended { .. } => None,
    }
}

// The code of what the tree of a list weighs in a table, if it weighs anything.
fn weigh_code<W: Kind>(
    table: &mut Closed<'_, W>,
    list: &[Node],
    work: &mut Work<W>,
) -> Result<Option<i64>, Trouble>
    requires { length list.now ≤ PLACES }
    ensures answer { ByHistory W.Kind.weights (closed_holds W.Kind.stands table.old) (λ b. IsTreeList b.content.ranks list.now → Faultless (Codes W.Kind.weights b list.now) result) }
    ensures same { SameClosed table.old table.new }
{
    let weighing = at_line(0, table.weigh(list, &mut work.places))?;
    Ok(code_of(weighing))
}

// Reduces a table. Answers its number of states.
fn reduce_table<W: Kind>(table: &mut Closed<'_, W>, work: &mut Work<W>) -> Result<usize, Trouble>
    ensures { ByHistory W.Kind.weights (closed_holds W.Kind.stands table.old) (λ b. Faultless (Least W.Kind.weights b) result) }
{
    let (_, states) = at_line(0, table.reduce(&mut work.places))?;
    Ok(states)
}

// The answer to two tables that weigh every tree alike.
fn tell_same<W: Kind>(
    heap: Global,
    first: &mut Closed<'_, W>,
    second: &mut Closed<'_, W>,
    work: &mut Work<W>,
) -> Result<Vec<u8>, Trouble>
    ensures { TellsSame W.Kind.weights (closed_holds W.Kind.stands first.old) (closed_holds W.Kind.stands second.old) result }
{
    let first_states = reduce_table(first, work)?;
    let second_states = reduce_table(second, work)?;
    Ok(write_same(heap, first_states, second_states)?)
}

// The answer to two tables that a tree list tells apart. Its tree is weighed before the tables are reduced.
fn tell_different<W: Kind>(
    heap: Global,
    first: &mut Closed<'_, W>,
    second: &mut Closed<'_, W>,
    list: &[Node],
    work: &mut Work<W>,
) -> Result<Vec<u8>, Trouble>
    requires { length list.now ≤ PLACES }
    ensures { TellsDifferent W.Kind.weights (closed_holds W.Kind.stands first.old) (closed_holds W.Kind.stands second.old) list.now result }
{
    let alphabet = first.alphabet();
    let first_code = weigh_code(first, list, work)?;
    let second_code = weigh_code(second, list, work)?;
    let first_states = reduce_table(first, work)?;
    let second_states = reduce_table(second, work)?;
    let first = Told {
        states: first_states,
        code: first_code,
    };
    let second = Told {
        states: second_states,
        code: second_code,
    };
    Ok(write_different(heap, &alphabet, list, first, second)?)
}

// The answer to two tables: their least numbers of states, and whether every tree weighs alike in both, or a tree that does not.
pub fn judge<W: Kind>(
    heap: Global,
    first: &mut Closed<'_, W>,
    second: &mut Closed<'_, W>,
) -> Result<Vec<u8>, Trouble>
    ensures { ByHistories W.Kind.weights (closed_holds W.Kind.stands first.old) (closed_holds W.Kind.stands second.old) (λ b d. Judges W.Kind.weights b d result) }
{
    let mut list = vec![in heap; Node {
        symbol: 0,
        children: [0; 4]
    }; PLACES]?;
    let mut work = Work::new(heap)?;
    match at_line(0, first.compare(second, &mut list, &mut work.places))? {
        Comparison::Same => tell_same(heap, first, second, &mut work),
        Comparison::Different { entries } => {
            list.truncate(entries);
            tell_different(heap, first, second, &list, &mut work)
        }
    }
}
