// Reductions of many small tables.
// How many states are left was found apart from this code: by closing the set of states that trees have, and by following every two of them
// through all contexts, one rule at a time, with the ratio of their weights.
use crate::drawing::{COSTS, Drawing, MARKS, RESIDUES, Variation};
use kinds::{Cost, Kind, Marks, Residue};
use rules::Place;
use std::process::Abort;
use std::test::*;

// The table of a seed as it is drawn, with a copy of a state, or with a copy whose weights differ at one attempt.
fn varied(seed: usize) -> Variation {
    let k = seed / 3;
    let plain = Variation::default();
    let turned = Variation { turn: k, ..plain };
    match seed % 3 {
        0 => plain,
        1 => Variation {
            copied: Some(k % 4),
            ..turned
        },
        _ => Variation {
            copied: Some(k % 3),
            skewed: Some(k % 7 + 2),
            ..turned
        },
    }
}

// Reduces the table of a seed twice: the numbers of states before, after and at the end.
fn reduced<W: Kind + Clone>(
    rt: &(impl Abort + AllocGlobal),
    seed: usize,
    codes: [i64; 4],
) -> Result<[usize; 3], Fail> {
    let drawing = Drawing::new(seed, codes, varied(seed));
    drawing.with_table::<W, _, _>(rt, |table| {
        if seed % 3 > 0 {
            drawing.push(rt, table)?;
        }
        let mut work = vec![in rt.alloc(); Place::blank(); 5]?;
        let (before, after) = table.reduce(work.as_mut_slice())?;
        let (_, end) = table.reduce(work.as_mut_slice())?;
        Ok([before, after, end])
    })
}

// Each digit is the number of states left for one of the seeds from `first` on.
fn check_all<W: Kind + Clone>(
    rt: &(impl Abort + AllocGlobal),
    first: usize,
    codes: [i64; 4],
    digits: &[u8],
) -> Result<(), Fail> {
    for (seed, digit) in (first..).zip(digits) {
        let left = digit.wrapping_sub(b'0') as usize;
        let states = Drawing::new(seed, codes, varied(seed)).states();
        assert_eq!(rt;
            reduced::<W>(rt, seed, codes)?,
            [states, left, left],
            "seed {seed}"
        );
    }
    Ok(())
}

#[test]
fn drawn_residues(rt: HostRuntime) -> Result<(), Fail> {
    check_all::<Residue>(
        &rt,
        0,
        RESIDUES,
        b"41330121310311034123312311223113012311230122512141",
    )?;
    check_all::<Residue>(
        &rt,
        50,
        RESIDUES,
        b"23212311123123422041223133312121024120112351204123",
    )?;
    check_all::<Residue>(
        &rt,
        100,
        RESIDUES,
        b"31031123113331224120413241031120412331234123212041",
    )
}

#[test]
fn drawn_marks(rt: HostRuntime) -> Result<(), Fail> {
    check_all::<Marks>(
        &rt,
        0,
        MARKS,
        b"412301113103110341233123112231130123112301224121411321231112",
    )
}

#[test]
fn drawn_costs(rt: HostRuntime) -> Result<(), Fail> {
    check_all::<Cost>(
        &rt,
        0,
        COSTS,
        b"413301213103110341233123112231130123112301225121412321231112",
    )
}
