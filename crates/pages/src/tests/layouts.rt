// Pages that are not in the layout.
use crate::tests::{refuses, refuses_bytes};
use std::alloc::Global;
use std::process::Abort;
use std::test::Fail;

// Checks that the last line is not in the layout, or out of place.
fn refuses_last(rt: &impl Abort, heap: Global, page: &[&str]) -> Result<(), Fail> {
    refuses(rt, heap, page, [page.len(), 1, 13])
}

// Checks that the page ends too early.
fn refuses_end(rt: &impl Abort, heap: Global, page: &[&str]) -> Result<(), Fail> {
    refuses(rt, heap, page, [page.len() + 1, 1, 13])
}

#[test]
fn short_pages(rt: HostRuntime) -> Result<(), Fail> {
    let heap = rt.alloc();
    refuses_end(&rt, heap, &[])?;
    refuses_end(&rt, heap, &["K     2"])?;
    refuses_end(&rt, heap, &["K     2", "T     1     0"])?;
    refuses_end(&rt, heap, &["K     2", "T     1     0", "A     0"])?;
    refuses_end(&rt, heap, &["K     2", "T     1     0", "E"])?;
    refuses_end(
        &rt,
        heap,
        &["K     2", "T     1     0", "E", "T     1     0"],
    )?;
    refuses_bytes(&rt, heap, b"K", [1, 1, 13])
}

#[test]
fn line_ends(rt: HostRuntime) -> Result<(), Fail> {
    let heap = rt.alloc();
    refuses_bytes(&rt, heap, b"K     2", [1, 1, 13])?;
    refuses_bytes(&rt, heap, b"K     2\r\n", [1, 1, 13])?;
    refuses_bytes(&rt, heap, b"K     2\nT     1     0\r", [2, 1, 13])?;
    refuses_bytes(
        &rt,
        heap,
        b"K     2\nT     1     0\nE\nT     0     0\nE",
        [5, 1, 13],
    )?;
    refuses_bytes(
        &rt,
        heap,
        b"K     2\nT     1     0\nE\nT     0     0\nE\r\n",
        [5, 1, 13],
    )?;
    refuses_bytes(
        &rt,
        heap,
        b"K     2\nT     1     0\nE\nT     0     0\nE\n ",
        [6, 1, 13],
    )
}

#[test]
fn lines_behind_the_last(rt: HostRuntime) -> Result<(), Fail> {
    let heap = rt.alloc();
    for line in ["", " ", "E", "A     0", "K     2", "T     1     0"] {
        refuses_last(
            &rt,
            heap,
            &["K     2", "T     1     0", "E", "T     0     0", "E", line],
        )?;
    }
    Ok(())
}

#[test]
fn empty_lines(rt: HostRuntime) -> Result<(), Fail> {
    let heap = rt.alloc();
    refuses_last(&rt, heap, &[""])?;
    refuses_last(&rt, heap, &["K     2", ""])?;
    refuses_last(&rt, heap, &["K     2", "T     1     0", ""])?;
    refuses_last(&rt, heap, &["K     2", "T     1     0", "E", ""])
}

#[test]
fn kind_lines(rt: HostRuntime) -> Result<(), Fail> {
    let heap = rt.alloc();
    for line in [
        "K",
        "K     2     2",
        "K    02",
        "K2     ",
        "K\t\t\t\t\t2",
        "k     2",
        " K    2",
    ] {
        refuses_last(&rt, heap, &[line])?;
    }
    refuses_bytes(&rt, heap, b"K     \xb2\n", [1, 1, 13])?;
    refuses_bytes(&rt, heap, b"\xcb     2\n", [1, 1, 13])
}

#[test]
fn unknown_kinds(rt: HostRuntime) -> Result<(), Fail> {
    let heap = rt.alloc();
    for line in ["K     0", "K     4", "K   255", "K   257", "K999999"] {
        refuses_last(&rt, heap, &[line])?;
    }
    Ok(())
}

#[test]
fn lines_out_of_place(rt: HostRuntime) -> Result<(), Fail> {
    let heap = rt.alloc();
    refuses_last(&rt, heap, &["T     1     0"])?;
    refuses_last(&rt, heap, &["E"])?;
    for line in ["K     2", "A     0", "R     0     0           1", "E"] {
        refuses_last(&rt, heap, &["K     2", line])?;
        refuses_last(&rt, heap, &["K     2", "T     1     0", "E", line])?;
    }
    for line in ["K     2", "T     1     0"] {
        refuses_last(&rt, heap, &["K     2", "T     1     0", line])?;
        refuses_last(
            &rt,
            heap,
            &["K     2", "T     1     0", "E", "T     1     0", line],
        )?;
    }
    Ok(())
}

#[test]
fn table_lines(rt: HostRuntime) -> Result<(), Fail> {
    let heap = rt.alloc();
    for line in [
        "T",
        "t     1     0",
        "T     1     0 ",
        "T    -1     0",
        "T     1    00",
        "T     1      ",
    ] {
        refuses_last(&rt, heap, &["K     2", line])?;
    }
    Ok(())
}

#[test]
fn accept_lines(rt: HostRuntime) -> Result<(), Fail> {
    let heap = rt.alloc();
    for line in [
        "A",
        "a     0",
        "A      ",
        "A     0     0",
        "A  0  0",
        "A\0\0\0\0\0\0",
    ] {
        refuses_last(&rt, heap, &["K     2", "T     1     0", line])?;
    }
    Ok(())
}

#[test]
fn rule_lines(rt: HostRuntime) -> Result<(), Fail> {
    let heap = rt.alloc();
    for line in [
        "R     0     0",
        "R     0     0     1",
        "R     0     0           1     0     0     0     0     0",
        "R     0     0           1     0     0     0     0 ",
        "R     0     0           1     0     0     0    -1",
        "R    00     0           1     0     0     0     0",
        "R     0     x           1     0     0     0     0",
        "r     0     0           1     0     0     0     0",
    ] {
        refuses_last(&rt, heap, &["K     2", "T     1     4", line])?;
    }
    Ok(())
}

#[test]
fn end_lines(rt: HostRuntime) -> Result<(), Fail> {
    let heap = rt.alloc();
    for line in ["e", "E ", "E     0"] {
        refuses_last(&rt, heap, &["K     2", "T     1     0", line])?;
    }
    Ok(())
}

// The layout of a rule line comes before its weight.
#[test]
fn layout_first(rt: HostRuntime) -> Result<(), Fail> {
    refuses_last(
        &rt,
        rt.alloc(),
        &[
            "K     2",
            "T     1     1",
            "R     0     0           x     y",
        ],
    )
}
