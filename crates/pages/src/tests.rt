// Pages and the answers to them.
mod faults;
mod layouts;
mod sizes;
mod verdicts;
mod weights;

use crate::answer;
use layout::write_line;
use std::alloc::{AllocError, Global};
use std::process::Abort;
use std::test::Fail;

fn text_of(heap: Global, lines: &[&str]) -> Result<Vec<u8>, AllocError> {
    let mut text = Vec::new(heap);
    for line in lines {
        text.extend_from_slice(line.as_bytes())?;
        text.push(b'\n')?;
    }
    Ok(text)
}

// Checks the answer to a page, both by their lines.
fn answers(rt: &impl Abort, heap: Global, page: &[&str], wanted: &[&str]) -> Result<(), Fail> {
    let page = text_of(heap, page)?;
    let wanted = text_of(heap, wanted)?;
    let found = answer(heap, &page)?;
    assert!(rt; found.as_slice() == wanted.as_slice());
    Ok(())
}

// Checks the line, the layer and the refusal of the first fault of a page.
fn refuses_bytes(
    rt: &impl Abort,
    heap: Global,
    page: &[u8],
    numbers: [usize; 3],
) -> Result<(), Fail> {
    let mut wanted = Vec::new(heap);
    write_line(&mut wanted, b'X', &numbers)?;
    let found = answer(heap, page)?;
    assert!(rt; found.as_slice() == wanted.as_slice(), "{numbers:?}");
    Ok(())
}

// The same for a page that is given by its lines.
fn refuses(rt: &impl Abort, heap: Global, page: &[&str], numbers: [usize; 3]) -> Result<(), Fail> {
    refuses_bytes(rt, heap, &text_of(heap, page)?, numbers)
}
