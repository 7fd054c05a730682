// The search through the pairs of live states that one tree has in two tables.
ghost use Rattle.std.specs.Prelude.{◌≡◌, ◌+◌, ◌*◌, ◌≤◌, length};
ghost use Rattle.rules.specs.Shapes.{ranks_in, states_in, automaton_of};
ghost use Rattle.comparison.specs.Forest.{Forest};
ghost use Rattle.comparison.specs.Scanning.{two};
ghost use Rattle.comparison.specs.Exploring.{LiveWithin, Explores, advanced};

use crate::exploring_cursor::Cursor;
use crate::exploring_end::Exploring;
use crate::exploring_taking::take_up;
use crate::scan::Scan;
use crate::scan_tables::LiveTables;
use crate::two_tables::TwoTables;
use kinds::Kind;
use pairs::PairTable;
use rules::Place;

// The cursor at the next rule, or at the first again if there are entries since it stood there.
fn advance<W: Kind>(tables: &TwoTables<W>, len: usize, cursor: Cursor) -> Option<Cursor>
    ensures { result ≡ advanced (length tables.now.first.rules.now) (length tables.now.second.rules.now) len cursor }
{
    if cursor.first < tables.first.rules.len() {
        Some(Cursor {
            first: cursor.first + 1,
            ..cursor
        })
    } else if cursor.second < tables.second.rules.len() {
        Some(Cursor {
            second: cursor.second + 1,
            ..cursor
        })
    } else if cursor.start < len {
        Some(Cursor {
            first: 0,
            second: 0,
            start: len,
            since: Some(cursor.start),
        })
    } else {
        None
    }
}

// Searches for a tree that tells the two tables apart, or for none, behind the first `base` entries: takes up nodes until none is left, or the
// tables are told apart.
pub fn explore<W: Kind>(tables: &LiveTables<W>, work: &mut [Place<W>], base: usize) -> Exploring
    requires same { ranks_in tables.now.tables.first.shape.now ≡ ranks_in tables.now.tables.second.shape.now }
    requires live { LiveWithin (two W.Kind.stands tables.now) }
    requires forest { Forest W.Kind.weights W.Kind.stands (automaton_of W.Kind.stands tables.now.tables.first) (automaton_of W.Kind.stands tables.now.tables.second) work.old base }
    requires room { base + states_in tables.now.tables.first.shape.now * states_in tables.now.tables.second.shape.now + 1 ≤ length work.old }
    ensures { Explores W.Kind.weights W.Kind.stands (two W.Kind.stands tables.now) work.old base work.new result }
{
    let mut pairs = PairTable::unnumbered();
    let mut len = base;
    let mut cursor = Cursor {
        first: 0,
        second: 0,
        start: base,
        since: None,
    };
    loop {
        let scan = Scan {
            live: *tables,
            work,
            pairs: &pairs,
        };
        if let Some(finding) = scan.scan_at(&cursor) {
            if let Some(outcome) = take_up(tables, work, len, &mut pairs, finding) {
                return Exploring {
                    outcome: Some(outcome),
                    len: len + 1,
                };
            }
            len += 1;
        } else {
            let Some(next) = advance(&tables.tables, len, cursor) else {
                return Exploring { outcome: None, len };
            };
            cursor = next;
        }
    }
}
