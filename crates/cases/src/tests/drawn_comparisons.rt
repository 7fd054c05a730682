// Comparisons of many small tables with variations of them.
// Which of them are alike was found apart from this code: by closing the set of what trees come to, a state and a weight in each of the two
// tables, which is finite for the weights below.
use crate::drawing::{COSTS, Drawing, MARKS, RANKS, RESIDUES, Variation};
use crate::witnesses::compared_both_ways;
use kinds::{Cost, Kind, Marks, Residue};
use rules::Place;
use std::process::Abort;
use std::test::*;
use tables::Closed;

// How the second table of a seed differs: by a copy of a state, by a rule less, by another weight, by acceptance, or only by the numbers of its states.
fn varied(seed: usize) -> Variation {
    let k = seed / 5;
    let plain = Variation::default();
    let turned = Variation { turn: k, ..plain };
    let copied = Some(k % 4);
    match seed % 5 {
        0 => Variation { copied, ..turned },
        1 => Variation {
            copied,
            omitted: Some(k % 7),
            ..turned
        },
        2 => Variation {
            changed: Some(k % 7),
            ..turned
        },
        3 => Variation {
            copied,
            flipped: Some(k % 2),
            ..plain
        },
        _ => turned,
    }
}

// Pushes at the states of the second table, or reduces it, for some of the seeds.
fn worked<W: Kind + Clone>(
    rt: &(impl Abort + AllocGlobal),
    seed: usize,
    drawing: &Drawing,
    table: &mut Closed<'_, W>,
) -> Result<(), Fail> {
    if matches!(seed % 5, 0 | 3 | 4) {
        drawing.push(rt, table)?;
    }
    if seed % 5 == 4 {
        let mut work = vec![in rt.alloc(); Place::blank(); 5]?;
        table.reduce(work.as_mut_slice())?;
    }
    Ok(())
}

// Whether the two tables of a seed are alike, compared in both orders.
fn alike<W: Kind + Clone>(
    rt: &(impl Abort + AllocGlobal),
    seed: usize,
    codes: [i64; 4],
) -> Result<[bool; 2], Fail> {
    let plain = Drawing::new(seed, codes, Variation::default());
    let other = Drawing::new(seed, codes, varied(seed));
    let [there, back] = plain.with_table::<W, _, _>(rt, |first| {
        other.with_table(rt, |second| {
            worked(rt, seed, &other, second)?;
            compared_both_ways(rt, &RANKS, 60, first, second)
        })
    })?;
    Ok([there.is_none(), back.is_none()])
}

// Each sign says for one of the seeds from `first` on whether its tables are alike.
fn check_all<W: Kind + Clone>(
    rt: &(impl Abort + AllocGlobal),
    first: usize,
    codes: [i64; 4],
    signs: &[u8],
) -> Result<(), Fail> {
    for (seed, sign) in (first..).zip(signs) {
        let same = *sign == b'=';
        assert_eq!(rt; alike::<W>(rt, seed, codes)?, [same; 2], "seed {seed}");
    }
    Ok(())
}

#[test]
fn drawn_residues(rt: HostRuntime) -> Result<(), Fail> {
    check_all::<Residue>(
        &rt,
        0,
        RESIDUES,
        b"=!!!==!!!==!=!==!=!===!!====!==!=!==!!!==!!!==!=!=",
    )?;
    check_all::<Residue>(
        &rt,
        50,
        RESIDUES,
        b"=!=!====!====!==!=!==!!!==!!!==!====!=!==!!!==!=!=",
    )?;
    check_all::<Residue>(
        &rt,
        100,
        RESIDUES,
        b"===!==!!===!!!==!!!===!!===!!====!====!==!!!==!=!=",
    )
}

#[test]
fn drawn_marks(rt: HostRuntime) -> Result<(), Fail> {
    check_all::<Marks>(
        &rt,
        0,
        MARKS,
        b"=!=!==!=!==!=!==!=!====!====!==!=!==!=!==!=!==!=!==!=!====!=",
    )
}

#[test]
fn drawn_costs(rt: HostRuntime) -> Result<(), Fail> {
    check_all::<Cost>(
        &rt,
        0,
        COSTS,
        b"=!!!==!!!==!=!==!=!===!!====!==!=!==!!!==!!!==!=!==!=!====!=",
    )
}
