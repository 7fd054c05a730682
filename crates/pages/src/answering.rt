// The answer to a page.
ghost use Rattle.std.specs.Prelude.{◌≡◌, IfOk};
ghost use Rattle.pages.specs.Reading.{AnswersPage};
ghost use Rattle.pages.specs.Answering.{fault_line, Answered};

use crate::cursor::Cursor;
use crate::fault::Fault;
use crate::named::Named;
use crate::starting::read_kind;
use crate::table_pair::answer_tables;
use crate::trouble::Trouble;
use kinds::{Cost, Marks, Residue};
use layout::write_line;
use std::alloc::{AllocError, Global};

// The verdict on the tables of a page, or its first fault.
fn verdict(heap: Global, page: &[u8]) -> Result<Vec<u8>, Trouble>
    ensures { AnswersPage page.now result }
{
    let (named, mut cursor) = read_kind(page)?;
    match named {
        Named::Marks => answer_tables::<Marks>(heap, &mut cursor),
        Named::Residues => answer_tables::<Residue>(heap, &mut cursor),
        Named::Costs => answer_tables::<Cost>(heap, &mut cursor),
    }
}

fn write_fault(heap: Global, fault: &Fault) -> Result<Vec<u8>, AllocError>
    ensures { IfOk result (λ v. v.items ≡ fault_line fault.now) }
{
    let mut out = Vec::new(heap);
    write_line(&mut out, b'X', &fault.numbers())?;
    Ok(out)
}

// The answer to a page: the line of its first fault, or the verdict on its two tables.
pub fn answer(heap: Global, page: &[u8]) -> Result<Vec<u8>, AllocError>
    ensures { IfOk result (λ v. Answered page.now v.items) }
{
    match verdict(heap, page) {
        Ok(out) => Ok(out),
        Err(Trouble::Fault(fault)) => write_fault(heap, &fault),
        Err(Trouble::NoMemory) => Err(AllocError),
    }
}
