// The lines of a table behind the first.
ghost use Rattle.std.specs.Prelude.{◌≡◌};
ghost use Rattle.tables.specs.Images.{draft_holds};
ghost use Rattle.pages.specs.Reading.{FillsRest};

use crate::cursor::Cursor;
use crate::entering::enter;
use crate::trouble::Trouble;
use kinds::Kind;
use layout::Line;
use std::alloc::Global;
use tables::Draft;

// Enters the lines up to the end of the table.
pub fn fill_table<W: Kind>(
    heap: Global,
    cursor: &mut Cursor,
    draft: &mut Draft<W>,
) -> Result<(), Trouble>
    ensures page { cursor.new.page.now ≡ cursor.old.page.now }
    ensures filled { FillsRest W.Kind.weights cursor.old.page.now cursor.old cursor.new (draft_holds W.Kind.stands draft.old) (draft_holds W.Kind.stands draft.new) result }
{
    loop {
        let number = cursor.line();
        let line = cursor.next_line()?;
        if let Line::End = line {
            return Ok(());
        }
        enter(heap, number, line, draft)?;
    }
}
