// Pages and tables of the largest sizes, and beyond them.
use crate::answer;
use crate::tests::{refuses_bytes, text_of};
use layout::{write_field, write_line};
use std::alloc::{AllocError, Global};
use std::test::Fail;

// A page of 65,536 bytes.
fn long_page(heap: Global) -> Result<Vec<u8>, AllocError> {
    let mut page = text_of(heap, &["K     2", "T     1     0"])?;
    for _ in 0..8187 {
        page.extend_from_slice(b"A     0\n")?;
    }
    page.extend_from_slice(b"E\nT     1     0\nE\n")?;
    Ok(page)
}

#[test]
fn longest_page(rt: HostRuntime) -> Result<(), Fail> {
    let heap = rt.alloc();
    let page = long_page(heap)?;
    assert_eq!(rt; page.len(), 65_536);
    let found = answer(heap, &page)?;
    assert!(rt; found.as_slice() == b"V     0     0     0     0\n".as_slice());
    Ok(())
}

#[test]
fn too_long_a_page(rt: HostRuntime) -> Result<(), Fail> {
    let heap = rt.alloc();
    let mut page = long_page(heap)?;
    page.push(b'\n')?;
    refuses_bytes(&rt, heap, &page, [0, 1, 13])
}

// The length of a page is tested before its lines.
#[test]
fn length_first(rt: HostRuntime) -> Result<(), Fail> {
    let heap = rt.alloc();
    refuses_bytes(&rt, heap, &vec![in heap; b' '; 65_536]?, [1, 1, 13])?;
    refuses_bytes(&rt, heap, &vec![in heap; b' '; 65_537]?, [0, 1, 13])?;
    refuses_bytes(&rt, heap, &vec![in heap; b'\n'; 1_000_000]?, [0, 1, 13])
}

// A page up to the 1,024 rules of its first table.
fn page_with_rules(heap: Global) -> Result<Vec<u8>, AllocError> {
    let mut page = text_of(heap, &["K     1", "T    48     2"])?;
    for first in 0..32 {
        for second in 0..32 {
            page.extend_from_slice(b"R     0     0           1")?;
            write_field(&mut page, 6, first)?;
            write_field(&mut page, 6, second)?;
            page.push(b'\n')?;
        }
    }
    Ok(page)
}

#[test]
fn most_rules(rt: HostRuntime) -> Result<(), Fail> {
    let heap = rt.alloc();
    let mut page = page_with_rules(heap)?;
    page.extend_from_slice(b"E\nT     1     2\nE\n")?;
    let found = answer(heap, &page)?;
    assert!(rt; found.as_slice() == b"V     0     0     0     0\n".as_slice());
    Ok(())
}

#[test]
fn too_many_rules(rt: HostRuntime) -> Result<(), Fail> {
    let heap = rt.alloc();
    let mut page = page_with_rules(heap)?;
    page.extend_from_slice(b"R     0     0           1    47    47\n")?;
    refuses_bytes(&rt, heap, &page, [1027, 2, 7])
}

// A left side that has a rule comes before the number of rules.
#[test]
fn taken_first(rt: HostRuntime) -> Result<(), Fail> {
    let heap = rt.alloc();
    let mut page = page_with_rules(heap)?;
    page.extend_from_slice(b"R     0     0           1    31    31\n")?;
    refuses_bytes(&rt, heap, &page, [1027, 2, 6])
}

#[test]
fn most_ranks(rt: HostRuntime) -> Result<(), Fail> {
    let heap = rt.alloc();
    let mut page = text_of(heap, &["K     2"])?;
    write_line(&mut page, b'T', &[4; 33])?;
    page.extend_from_slice(b"E\n")?;
    write_line(&mut page, b'T', &[4; 33])?;
    page.extend_from_slice(b"E\n")?;
    let found = answer(heap, &page)?;
    assert!(rt; found.as_slice() == b"V     0     0     0     0\n".as_slice());
    Ok(())
}

#[test]
fn too_many_ranks(rt: HostRuntime) -> Result<(), Fail> {
    let heap = rt.alloc();
    let mut page = text_of(heap, &["K     2"])?;
    write_line(&mut page, b'T', &[4; 34])?;
    refuses_bytes(&rt, heap, &page, [2, 2, 1])
}
