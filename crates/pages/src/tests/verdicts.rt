// Pages without a fault.
use crate::tests::answers;
use std::test::Fail;

#[test]
fn different(rt: HostRuntime) -> Result<(), Fail> {
    answers(
        &rt,
        rt.alloc(),
        &[
            "K     2",
            "T     2     0     1",
            "A     1",
            "R     0     0           4",
            "R     1     1           8     0",
            "E",
            "T     2     0     1",
            "A     1",
            "R     0     0           2",
            "R     1     1          15     0",
            "E",
        ],
        &[
            "V     1     2     2     2",
            "N     0     0",
            "N     1     1     0",
            "W     1     1          32",
            "W     2     1          30",
        ],
    )
}

#[test]
fn same(rt: HostRuntime) -> Result<(), Fail> {
    answers(
        &rt,
        rt.alloc(),
        &[
            "K     2",
            "T     2     0     1",
            "A     1",
            "R     0     0           4",
            "R     1     1           8     0",
            "E",
            "T     2     0     1",
            "A     1",
            "R     0     0           2",
            "R     1     1          16     0",
            "E",
        ],
        &["V     0     2     2     0"],
    )
}

#[test]
fn nothing_in_second(rt: HostRuntime) -> Result<(), Fail> {
    answers(
        &rt,
        rt.alloc(),
        &[
            "K     1",
            "T     1     0",
            "A     0",
            "R     0     0           1",
            "E",
            "T     1     0",
            "E",
        ],
        &[
            "V     1     1     0     1",
            "N     0     0",
            "W     1     1           1",
            "W     2     0           0",
        ],
    )
}

#[test]
fn nothing_in_first(rt: HostRuntime) -> Result<(), Fail> {
    answers(
        &rt,
        rt.alloc(),
        &[
            "K     3",
            "T     0     0",
            "E",
            "T     1     0",
            "R     0     0          -1",
            "A     0",
            "E",
        ],
        &[
            "V     1     0     1     1",
            "N     0     0",
            "W     1     0           0",
            "W     2     1          -1",
        ],
    )
}

// Sums of costs wrap.
#[test]
fn costs(rt: HostRuntime) -> Result<(), Fail> {
    answers(
        &rt,
        rt.alloc(),
        &[
            "K     3",
            "T     2     0     1",
            "A     1",
            "R     0     0 -2147483648",
            "R     1     1  2147483647     0",
            "E",
            "T     2     0     1",
            "A     0",
            "R     0     1           9",
            "R     1     0         -10     1",
            "E",
        ],
        &["V     0     2     2     0"],
    )
}

// The children of an entry stand in their order.
#[test]
fn four_children(rt: HostRuntime) -> Result<(), Fail> {
    answers(
        &rt,
        rt.alloc(),
        &[
            "K     2",
            "T     3     0     0     4",
            "A     2",
            "R     2     2           3     0     1     1     0",
            "R     0     0           1",
            "R     1     1         256",
            "E",
            "T     3     0     0     4",
            "R     0     2           1",
            "R     1     1           1",
            "R     2     0           4     2     1     1     2",
            "A     0",
            "E",
        ],
        &[
            "V     1     3     3     3",
            "N     0     0",
            "N     1     1",
            "N     2     2     0     1     1     0",
            "W     1     1           3",
            "W     2     1           4",
        ],
    )
}

// Of five states, two are alike, one leads to no accepting state, and two are not reached.
#[test]
fn marks_reduce(rt: HostRuntime) -> Result<(), Fail> {
    answers(
        &rt,
        rt.alloc(),
        &[
            "K     1",
            "T     5     0     0     1",
            "A     0",
            "A     1",
            "A     4",
            "A     1",
            "R     0     0           1",
            "R     1     1           1",
            "R     2     2           1     0",
            "R     2     3           1     3",
            "E",
            "T     1     0     0     1",
            "A     0",
            "R     0     0           1",
            "R     1     0           1",
            "E",
        ],
        &["V     0     1     1     0"],
    )
}

// The states 0 and 1 of the first table are alike but for a factor.
#[test]
fn residues_reduce(rt: HostRuntime) -> Result<(), Fail> {
    answers(
        &rt,
        rt.alloc(),
        &[
            "K     2",
            "T     3     0     0     1",
            "A     2",
            "R     0     0           1",
            "R     1     1           1",
            "R     2     2           3     0",
            "R     2     2           6     1",
            "E",
            "T     2     0     0     1",
            "A     1",
            "R     0     0           1",
            "R     1     0           2",
            "R     2     1           3     0",
            "E",
        ],
        &["V     0     2     2     0"],
    )
}

#[test]
fn no_accepting_state(rt: HostRuntime) -> Result<(), Fail> {
    answers(
        &rt,
        rt.alloc(),
        &[
            "K     2",
            "T     0     0     1",
            "E",
            "T     2     0     1",
            "R     0     0           4",
            "R     1     1           8     0",
            "E",
        ],
        &["V     0     0     0     0"],
    )
}

// Every tree of an alphabet without a symbol of rank 0 is missing.
#[test]
fn no_tree(rt: HostRuntime) -> Result<(), Fail> {
    answers(
        &rt,
        rt.alloc(),
        &[
            "K     1",
            "T    48     4",
            "A    47",
            "R     0    47           1    47    47    47    47",
            "E",
            "T     0     4",
            "E",
        ],
        &["V     0     0     0     0"],
    )
}
