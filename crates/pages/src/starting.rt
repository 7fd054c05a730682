// The length and the first line of a page.
ghost use Rattle.std.specs.Prelude.{◌≡◌, IfOk, Decides};
ghost use Rattle.pages.specs.Pages.{FitsPage};
ghost use Rattle.pages.specs.Reading.{ReadsKind};

use crate::cursor::Cursor;
use crate::fault::Fault;
use crate::named::{Named, UnknownKind};
use layout::Line;

// The most bytes that a page can have.
const PAGE_BYTES: usize = 65_536;

fn fits_page(page: &[u8]) -> bool
    ensures { Decides result (FitsPage page.now) }
{
    page.len() <= PAGE_BYTES
}

// The kind that the first line names, and where the second begins.
pub fn read_kind(page: &[u8]) -> Result<(Named, Cursor), Fault>
    ensures read { ReadsKind page.now result }
    ensures page { IfOk result (λ r. r.1.page.now ≡ page.now) }
{
    if !fits_page(page) {
        return Err(Fault::Layout { line: 0 });
    }
    let mut cursor = Cursor::start(page);
    let line = cursor.line();
    let Line::Kind { number } = cursor.next_line()? else {
        return Err(Fault::Layout { line });
    };
    match Named::try_from(number) {
        Ok(named) => Ok((named, cursor)),
        Err(UnknownKind) => Err(Fault::Layout { line }),
    }
}
