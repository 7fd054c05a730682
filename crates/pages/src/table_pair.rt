// The tables of a page.
ghost use Rattle.std.specs.Prelude.{◌≡◌};
ghost use Rattle.pages.specs.Reading.{AnswersTables};

use crate::cursor::Cursor;
use crate::filling::fill_table;
use crate::judging::judge;
use crate::measuring::read_measure;
use crate::trouble::Trouble;
use kinds::Kind;
use rules::Rule;
use std::alloc::Global;
use tables::Draft;

// How many rules a table of a page can have.
const RULES: usize = 1024;

// The answer to the two tables behind the line of the kind, if nothing follows them.
pub fn answer_tables<W: Kind>(heap: Global, cursor: &mut Cursor) -> Result<Vec<u8>, Trouble>
    requires { cursor.old.line ≡ 2 }
    ensures { AnswersTables W.Kind.weights cursor.old.page.now cursor.old result }
{
    let mut first = vec![in heap; Rule::<W>::blank(); RULES]?;
    let mut second = vec![in heap; Rule::<W>::blank(); RULES]?;
    let measure = read_measure(heap, cursor)?;
    let mut draft = Draft::open(&measure, &mut first);
    fill_table(heap, cursor, &mut draft)?;
    let mut first = draft.close();
    let measure = read_measure(heap, cursor)?;
    let mut draft = Draft::open(&measure, &mut second);
    fill_table(heap, cursor, &mut draft)?;
    let mut second = draft.close();
    cursor.read_end()?;
    judge(heap, &mut first, &mut second)
}
