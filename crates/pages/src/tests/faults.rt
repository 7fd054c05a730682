// Pages that a table refuses.
use crate::tests::{answers, refuses};
use std::alloc::Global;
use std::process::Abort;
use std::test::Fail;

// Checks how a table refuses the last line.
fn refuses_last(rt: &impl Abort, heap: Global, page: &[&str], refusal: usize) -> Result<(), Fail> {
    refuses(rt, heap, page, [page.len(), 2, refusal])
}

// The same for a line of a table with two states, symbols of the ranks 0 and 2, and a rule.
fn refuses_line(rt: &impl Abort, heap: Global, line: &str, refusal: usize) -> Result<(), Fail> {
    let rule = "R     0     0           1";
    refuses_last(
        rt,
        heap,
        &["K     2", "T     2     0     2", rule, line],
        refusal,
    )
}

#[test]
fn ranks(rt: HostRuntime) -> Result<(), Fail> {
    let heap = rt.alloc();
    for line in [
        "T     0",
        "T    48",
        "T     1     5",
        "T     1     0     5",
        "T     1999999",
    ] {
        refuses_last(&rt, heap, &["K     2", line], 1)?;
    }
    Ok(())
}

#[test]
fn states(rt: HostRuntime) -> Result<(), Fail> {
    let heap = rt.alloc();
    refuses_last(&rt, heap, &["K     2", "T    49     0"], 2)?;
    refuses_last(&rt, heap, &["K     2", "T999999     0"], 2)?;
    refuses_last(&rt, heap, &["K     2", "T999999     5"], 1)
}

#[test]
fn accepting_states(rt: HostRuntime) -> Result<(), Fail> {
    let heap = rt.alloc();
    refuses_line(&rt, heap, "A     2", 3)?;
    refuses_line(&rt, heap, "A999999", 3)?;
    refuses_last(&rt, heap, &["K     2", "T     0     0", "A     0"], 3)
}

#[test]
fn symbols(rt: HostRuntime) -> Result<(), Fail> {
    let heap = rt.alloc();
    refuses_line(&rt, heap, "R     2     0           1", 4)?;
    refuses_line(&rt, heap, "R999999     0           1", 4)?;
    refuses_line(&rt, heap, "R     2     9           1     9     9     9", 4)
}

#[test]
fn children(rt: HostRuntime) -> Result<(), Fail> {
    let heap = rt.alloc();
    refuses_line(&rt, heap, "R     0     0           1     0", 5)?;
    refuses_line(&rt, heap, "R     1     0           1     0", 5)?;
    refuses_line(&rt, heap, "R     1     0           1     0     0     0", 5)?;
    refuses_line(&rt, heap, "R     1     9           1     9", 5)
}

#[test]
fn rule_states(rt: HostRuntime) -> Result<(), Fail> {
    let heap = rt.alloc();
    refuses_line(&rt, heap, "R     1     2           1     0     0", 3)?;
    refuses_line(&rt, heap, "R     1999999           1     0     0", 3)?;
    refuses_line(&rt, heap, "R     1     0           1     2     0", 3)?;
    refuses_line(&rt, heap, "R     1     0           1     0     2", 3)?;
    refuses_line(&rt, heap, "R     1     0           1     0999999", 3)?;
    refuses_line(&rt, heap, "R     0     2           1", 3)
}

#[test]
fn left_sides(rt: HostRuntime) -> Result<(), Fail> {
    let heap = rt.alloc();
    refuses_line(&rt, heap, "R     0     0           1", 6)?;
    refuses_line(&rt, heap, "R     0     1           2", 6)
}

#[test]
fn second_table(rt: HostRuntime) -> Result<(), Fail> {
    let heap = rt.alloc();
    refuses_last(
        &rt,
        heap,
        &["K     2", "T     2     0", "E", "T     2     5"],
        1,
    )?;
    refuses_last(
        &rt,
        heap,
        &["K     2", "T     2     0", "E", "T    49     0"],
        2,
    )?;
    refuses_last(
        &rt,
        heap,
        &["K     2", "T     2     0", "E", "T     1     0", "A     1"],
        3,
    )
}

// The two tables may have rules for one left side.
#[test]
fn left_sides_apart(rt: HostRuntime) -> Result<(), Fail> {
    let rule = "R     0     0           1";
    answers(
        &rt,
        rt.alloc(),
        &[
            "K     2",
            "T     1     0",
            rule,
            "E",
            "T     1     0",
            rule,
            "E",
        ],
        &["V     0     0     0     0"],
    )
}

#[test]
fn alphabets(rt: HostRuntime) -> Result<(), Fail> {
    let heap = rt.alloc();
    for (first, second) in [
        ("T     1     0", "T     1     0     1"),
        ("T     1     0     1", "T     1     0"),
        ("T     1     0     1", "T     1     1     0"),
        ("T     0     0", "T     0     1"),
    ] {
        refuses(&rt, heap, &["K     2", first, "E", second, "E"], [0, 2, 11])?;
    }
    Ok(())
}

#[test]
fn first_table_first(rt: HostRuntime) -> Result<(), Fail> {
    refuses(
        &rt,
        rt.alloc(),
        &[
            "K     2",
            "T     1     0",
            "A     1",
            "E",
            "T     1     5",
            "E",
        ],
        [3, 2, 3],
    )
}

#[test]
fn first_line_first(rt: HostRuntime) -> Result<(), Fail> {
    let heap = rt.alloc();
    refuses(
        &rt,
        heap,
        &["K     2", "T     1     0", "A     1", "x"],
        [3, 2, 3],
    )?;
    refuses(
        &rt,
        heap,
        &["K     2", "T     1     0", "x", "A     1"],
        [3, 1, 13],
    )
}

// Every line is tested before the two alphabets.
#[test]
fn alphabets_last(rt: HostRuntime) -> Result<(), Fail> {
    let heap = rt.alloc();
    refuses_last(
        &rt,
        heap,
        &["K     2", "T     1     0", "E", "T     1     1", "A     1"],
        3,
    )?;
    refuses(
        &rt,
        heap,
        &["K     2", "T     1     0", "E", "T     1     1", "E", "E"],
        [6, 1, 13],
    )
}
