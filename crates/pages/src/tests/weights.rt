// Weight fields, by kind.
use crate::answer;
use crate::tests::{refuses, text_of};
use std::alloc::{AllocError, Global};
use std::process::Abort;
use std::test::Fail;

// The answer to a page whose second table is empty, and whose first has one rule with this weight field.
fn answer_weight(heap: Global, kind: &str, field: &str) -> Result<Vec<u8>, AllocError> {
    let mut page = text_of(heap, &[kind, "T     1     0", "A     0"])?;
    page.extend_from_slice(b"R     0     0")?;
    page.extend_from_slice(field.as_bytes())?;
    page.extend_from_slice(b"\nE\nT     1     0\nE\n")?;
    answer(heap, &page)
}

// Checks that a weight is read, and told as it is written.
fn takes(rt: &impl Abort, heap: Global, kind: &str, field: &str) -> Result<(), Fail> {
    let mut wanted = text_of(heap, &["V     1     1     0     1", "N     0     0"])?;
    wanted.extend_from_slice(b"W     1     1")?;
    wanted.extend_from_slice(field.as_bytes())?;
    wanted.extend_from_slice(b"\nW     2     0           0\n")?;
    let found = answer_weight(heap, kind, field)?;
    assert!(rt; found.as_slice() == wanted.as_slice(), "{field}");
    Ok(())
}

fn refuses_weight(rt: &impl Abort, heap: Global, kind: &str, field: &str) -> Result<(), Fail> {
    let found = answer_weight(heap, kind, field)?;
    assert!(rt;
        found.as_slice() == b"X     4     3     8\n".as_slice(),
        "{field}"
    );
    Ok(())
}

#[test]
fn marks(rt: HostRuntime) -> Result<(), Fail> {
    let heap = rt.alloc();
    takes(&rt, heap, "K     1", "           1")?;
    refuses_weight(&rt, heap, "K     1", "           0")?;
    refuses_weight(&rt, heap, "K     1", "           2")?;
    refuses_weight(&rt, heap, "K     1", "          -1")
}

#[test]
fn residues(rt: HostRuntime) -> Result<(), Fail> {
    let heap = rt.alloc();
    takes(&rt, heap, "K     2", "           1")?;
    takes(&rt, heap, "K     2", "         256")?;
    refuses_weight(&rt, heap, "K     2", "           0")?;
    refuses_weight(&rt, heap, "K     2", "         257")?;
    refuses_weight(&rt, heap, "K     2", "          -1")
}

#[test]
fn costs(rt: HostRuntime) -> Result<(), Fail> {
    let heap = rt.alloc();
    takes(&rt, heap, "K     3", "           0")?;
    takes(&rt, heap, "K     3", "  2147483647")?;
    takes(&rt, heap, "K     3", " -2147483648")?;
    refuses_weight(&rt, heap, "K     3", "  2147483648")?;
    refuses_weight(&rt, heap, "K     3", " -2147483649")?;
    refuses_weight(&rt, heap, "K     3", "999999999999")?;
    refuses_weight(&rt, heap, "K     3", "-99999999999")
}

#[test]
fn no_numbers(rt: HostRuntime) -> Result<(), Fail> {
    let heap = rt.alloc();
    for field in [
        "            ",
        "          -0",
        "          01",
        "         -01",
        "         - 1",
        "         --1",
        "          +1",
        "1           ",
        "        1 23",
        "        cost",
    ] {
        refuses_weight(&rt, heap, "K     3", field)?;
    }
    Ok(())
}

// The weight of a rule is tested before its symbol, its children and its states.
#[test]
fn weight_first(rt: HostRuntime) -> Result<(), Fail> {
    let heap = rt.alloc();
    for line in [
        "R     9     0         257",
        "R     0     0         257     0",
        "R     0     9         257",
        "R999999999999999999999999999999999999999999999999",
    ] {
        refuses(&rt, heap, &["K     2", "T     1     0", line], [3, 3, 8])?;
    }
    Ok(())
}
