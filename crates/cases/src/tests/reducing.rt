// Reductions at known values and at their limits.
use crate::lines::{Line, fill, links, measured, with_table};
use crate::places::{count_marked, cut, marked};
use crate::{Answer, answer_of, leaf, node, over, stack};
use kinds::{Cost, Kind, Marks, Residue};
use rules::{Measure, Place};
use std::alloc::Global;
use std::process::Abort;
use std::test::*;
use tables::{Closed, Draft};
use trees::{Node, Refusal};

// What a table over 0, 1 and the unary 2 says of 2(0) and 2(1).
fn both<W: Kind>(table: &mut Closed<'_, W>, work: &mut [Place<W>]) -> [Result<Answer, u8>; 2] {
    [
        answer_of(table.weigh(&[leaf(0), over(2, 0)], work)),
        answer_of(table.weigh(&[leaf(1), over(2, 0)], work)),
    ]
}

// Hands on the table of the rules 0 → 0 / a, 1 → 1 / b, 2(0) → 2 / c and 2(1) → 2 / d, with state 2 accepting, for weights with these codes.
fn with_leaves<W, T, F>(heap: Global, codes: [i64; 4], then: F) -> Result<T, Fail>
where
    W: Kind + Clone,
    F: FnOnce(&mut Closed<'_, W>) -> Result<T, Fail>,
    requires { F.IsAlwaysCallable then }
{
    let [a, b, c, d] = codes;
    let lines = [
        Line::new(0, &[], 0, a),
        Line::new(1, &[], 1, b),
        Line::new(2, &[0], 2, c),
        Line::new(2, &[1], 2, d),
    ];
    with_table(
        heap,
        &measured(&[0, 0, 1], 3)?,
        4,
        |draft| fill(draft, &[2], &lines),
        then,
    )
}

// What that table says before, the answer of its reduction, and what it says then.
fn split<W: Kind + Clone>(
    heap: Global,
    codes: [i64; 4],
) -> Result<
    (
        [Result<Answer, u8>; 2],
        (usize, usize),
        [Result<Answer, u8>; 2],
    ),
    Fail,
> {
    with_leaves::<W, _, _>(heap, codes, |table| {
        let mut work = vec![in heap; Place::blank(); 3]?;
        let before = both(table, work.as_mut_slice());
        let counts = table.reduce(work.as_mut_slice())?;
        let after = both(table, work.as_mut_slice());
        Ok((before, counts, after))
    })
}

// Both trees weigh the same, and their leaves share a state afterwards.
fn merges<W: Kind + Clone>(
    rt: &(impl Abort + AllocGlobal),
    codes: [i64; 4],
    weight: i64,
) -> Result<(), Fail> {
    let (before, counts, after) = split::<W>(rt.alloc(), codes)?;
    assert_eq!(rt; before, [Ok(Answer::Weighs(2, weight)); 2]);
    assert_eq!(rt; counts, (3, 2));
    assert_eq!(rt; after, [Ok(Answer::Weighs(1, weight)); 2]);
    Ok(())
}

#[test]
fn leaves_with_other_weights(rt: HostRuntime) -> Result<(), Fail> {
    merges::<Residue>(&rt, [3, 6, 10, 5], 30)?;
    merges::<Residue>(&rt, [256, 1, 1, 256], 256)?;
    merges::<Marks>(&rt, [1, 1, 1, 1], 1)
}

#[test]
fn costs_at_the_ends_of_the_range(rt: HostRuntime) -> Result<(), Fail> {
    let most = 2147483647;
    let least = -2147483648;
    for (codes, weight) in [
        ([most, least, 1, 0], least),
        ([0, least, least, 0], least),
        ([least, most, least, -most], 0),
        ([most, most, most, most], -2),
        ([least, 0, 0, least], least),
    ] {
        merges::<Cost>(&rt, codes, weight)?;
    }
    Ok(())
}

// Leaves share a state even where their trees do not weigh the same.
#[test]
fn leaves_of_unequal_trees(rt: HostRuntime) -> Result<(), Fail> {
    let (before, counts, after) = split::<Residue>(rt.alloc(), [3, 6, 10, 4])?;
    assert_eq!(rt;
        before,
        [Ok(Answer::Weighs(2, 30)), Ok(Answer::Weighs(2, 24))]
    );
    assert_eq!(rt; counts, (3, 2));
    assert_eq!(rt;
        after,
        [Ok(Answer::Weighs(1, 30)), Ok(Answer::Weighs(1, 24))]
    );
    Ok(())
}

// The reduction of the rules 0 → 0 / a, 1 → 1 / a, 2(0) → 2 / a, 3(0) → 2 / b, 2(1) → 2 / a and 3(1) → 2 / c, with state 2 accepting.
fn two_contexts<W: Kind + Clone>(
    heap: Global,
    a: i64,
    b: i64,
    c: i64,
) -> Result<(usize, usize), Fail> {
    let lines = [
        Line::new(0, &[], 0, a),
        Line::new(1, &[], 1, a),
        Line::new(2, &[0], 2, a),
        Line::new(3, &[0], 2, b),
        Line::new(2, &[1], 2, a),
        Line::new(3, &[1], 2, c),
    ];
    with_table(
        heap,
        &measured(&[0, 0, 1, 1], 3)?,
        6,
        |draft| fill::<W>(draft, &[2], &lines),
        |table| {
            let mut work = vec![in heap; Place::blank(); 3]?;
            Ok(table.reduce(work.as_mut_slice())?)
        },
    )
}

#[test]
fn two_contexts_with_two_ratios(rt: HostRuntime) -> Result<(), Fail> {
    let heap = rt.alloc();
    assert_eq!(rt; two_contexts::<Residue>(heap, 1, 2, 3)?, (3, 3));
    assert_eq!(rt; two_contexts::<Residue>(heap, 1, 2, 2)?, (3, 2));
    assert_eq!(rt; two_contexts::<Marks>(heap, 1, 1, 1)?, (3, 2));
    assert_eq!(rt; two_contexts::<Cost>(heap, 0, 1, 2)?, (3, 3));
    assert_eq!(rt; two_contexts::<Cost>(heap, 0, 2, 2)?, (3, 2));
    Ok(())
}

#[test]
fn tables_without_states(rt: HostRuntime) -> Result<(), Fail> {
    with_table::<Residue, _, _, _>(
        rt.alloc(),
        &Measure::fresh(),
        1,
        |_| Ok(()),
        |table| {
            assert_eq!(rt; table.reduce(&mut []), Ok((0, 0)));
            let mut work = [Place::blank()];
            assert_eq!(rt; table.reduce(&mut work), Ok((0, 0)));
            assert_eq!(rt;
                answer_of(table.weigh(&[leaf(0)], &mut work)),
                Ok(Answer::NoRun)
            );
            Ok(())
        },
    )
}

#[test]
fn tables_without_accepting_states(rt: HostRuntime) -> Result<(), Fail> {
    let heap = rt.alloc();
    let lines = [
        Line::new(0, &[], 0, 4),
        Line::new(1, &[0], 1, 8),
        Line::new(1, &[1], 0, 8),
    ];
    let list = [leaf(0), over(1, 0)];
    let short = &list[0..1];
    with_table::<Residue, _, _, _>(
        heap,
        &measured(&[0, 1], 3)?,
        3,
        |draft| fill(draft, &[], &lines),
        |table| {
            let mut work = vec![in heap; Place::blank(); 3]?;
            assert_eq!(rt;
                answer_of(table.weigh(&list, work.as_mut_slice())),
                Ok(Answer::Ended(1))
            );
            assert_eq!(rt; table.reduce(work.as_mut_slice()), Ok((3, 0)));
            assert_eq!(rt;
                answer_of(table.weigh(short, work.as_mut_slice())),
                Ok(Answer::NoRun)
            );
            assert_eq!(rt;
                answer_of(table.weigh(&list, work.as_mut_slice())),
                Ok(Answer::NoRun)
            );
            Ok(())
        },
    )
}

// State 2 is not live, and no tree has state 3.
#[test]
fn states_that_are_dropped(rt: HostRuntime) -> Result<(), Fail> {
    let heap = rt.alloc();
    let lines = [
        Line::new(0, &[], 0, 4),
        Line::new(1, &[3], 1, 8),
        Line::new(1, &[0], 1, 8),
        Line::new(1, &[1], 2, 8),
        Line::new(1, &[2], 2, 8),
    ];
    let list = [leaf(0), over(1, 0), over(1, 1)];
    let (first, middle) = (&list[0..1], &list[0..2]);
    with_table::<Residue, _, _, _>(
        heap,
        &measured(&[0, 1], 4)?,
        5,
        |draft| fill(draft, &[1, 3], &lines),
        |table| {
            let mut work = vec![in heap; Place::blank(); 4]?;
            assert_eq!(rt;
                answer_of(table.weigh(&list, work.as_mut_slice())),
                Ok(Answer::Ended(2))
            );
            assert_eq!(rt; table.reduce(work.as_mut_slice()), Ok((4, 2)));
            assert_eq!(rt;
                answer_of(table.weigh(first, work.as_mut_slice())),
                Ok(Answer::Ended(0))
            );
            assert_eq!(rt;
                answer_of(table.weigh(middle, work.as_mut_slice())),
                Ok(Answer::Weighs(1, 32))
            );
            assert_eq!(rt;
                answer_of(table.weigh(&list, work.as_mut_slice())),
                Ok(Answer::NoRun)
            );
            Ok(())
        },
    )
}

// The codes of leaves_with_other_weights.
const LEAVES: [i64; 4] = [3, 6, 10, 5];

// A refused reduction writes no place and leaves the table as it was.
#[test]
fn refused_reductions(rt: HostRuntime) -> Result<(), Fail> {
    let heap = rt.alloc();
    with_leaves::<Residue, _, _>(heap, LEAVES, |table| {
        let mut own = vec![in heap; Place::blank(); 2]?;
        let before = both(table, own.as_mut_slice());
        let mut work = vec![in heap; marked(); 3]?;
        for places in 0..3 {
            assert_eq!(rt;
                table.reduce(cut(work.as_mut_slice(), places)),
                Err(Refusal::Short)
            );
            assert_eq!(rt; count_marked(work.as_slice()), 3);
            assert_eq!(rt; both(table, own.as_mut_slice()), before);
        }
        assert_eq!(rt; table.reduce(work.as_mut_slice()), Ok((3, 2)));
        // two states are left, so one place is too few now
        assert_eq!(rt;
            table.reduce(cut(work.as_mut_slice(), 1)),
            Err(Refusal::Short)
        );
        assert_eq!(rt; table.reduce(cut(work.as_mut_slice(), 2)), Ok((2, 2)));
        Ok(())
    })
}

#[test]
fn reductions_of_reduced_tables(rt: HostRuntime) -> Result<(), Fail> {
    let heap = rt.alloc();
    with_leaves::<Residue, _, _>(heap, LEAVES, |table| {
        let mut work = vec![in heap; Place::blank(); 4]?;
        assert_eq!(rt; table.reduce(work.as_mut_slice()), Ok((3, 2)));
        assert_eq!(rt; table.reduce(work.as_mut_slice()), Ok((2, 2)));
        table.push(0, Residue::read(5)?)?;
        assert_eq!(rt; table.reduce(work.as_mut_slice()), Ok((2, 2)));
        assert_eq!(rt; table.push(1, Residue::read(5)?), Err(Refusal::Accepting));
        assert_eq!(rt;
            both(table, work.as_mut_slice()),
            [Ok(Answer::Weighs(1, 30)); 2]
        );
        Ok(())
    })
}

// A push before the reduction changes neither its answer nor a weight.
#[test]
fn reductions_of_pushed_tables(rt: HostRuntime) -> Result<(), Fail> {
    let heap = rt.alloc();
    for (state, factor) in [(0, 2), (1, 256), (0, 129), (1, 3)] {
        with_leaves::<Residue, _, _>(heap, LEAVES, |table| {
            let mut work = vec![in heap; Place::blank(); 3]?;
            table.push(state, Residue::read(factor)?)?;
            assert_eq!(rt; table.reduce(work.as_mut_slice()), Ok((3, 2)));
            assert_eq!(rt;
                both(table, work.as_mut_slice()),
                [Ok(Answer::Weighs(1, 30)); 2]
            );
            Ok(())
        })?;
    }
    Ok(())
}

// The tree of symbol 2 over these four leaves.
fn quad(leaves: [usize; 4]) -> [Node; 3] {
    [leaf(0), leaf(1), node(2, leaves)]
}

// What the table says of six trees over four leaves.
fn quads(table: &mut Closed<'_, Residue>, work: &mut [Place<Residue>]) -> [Result<Answer, u8>; 6] {
    [
        [0, 0, 0, 0],
        [1, 0, 0, 0],
        [0, 0, 0, 1],
        [0, 1, 1, 0],
        [1, 1, 0, 1],
        [1, 1, 1, 1],
    ]
    .map(|leaves| answer_of(table.weigh(&quad(leaves), work)))
}

// The rules 0 → 0 / 3, 1 → 1 / 6, and one to the accepting state 2 for every four children, of weight 5 divided by 2 for each child 1:
// every tree of symbol 2 weighs 3⁴ · 5.
fn fours(draft: &mut Draft<'_, Residue>) -> Result<(), Fail> {
    draft.accept(2)?;
    draft.add(0, &[], 0, Residue::read(3)?)?;
    draft.add(1, &[], 1, Residue::read(6)?)?;
    let whole = Residue::read(5)?;
    let half = Residue::read(129)?;
    for k in 0..16usize {
        let children = [k % 2, k / 2 % 2, k / 4 % 2, k / 8];
        let weight = children
            .iter()
            .filter(|child| **child == 1)
            .fold(whole, |weight, _| weight.times(half));
        draft.add(2, &children, 2, weight)?;
    }
    Ok(())
}

#[test]
fn four_equal_children(rt: HostRuntime) -> Result<(), Fail> {
    let heap = rt.alloc();
    with_table(heap, &measured(&[0, 0, 4], 3)?, 18, fours, |table| {
        let mut work = vec![in heap; Place::blank(); 3]?;
        assert_eq!(rt;
            quads(table, work.as_mut_slice()),
            [Ok(Answer::Weighs(2, 148)); 6]
        );
        assert_eq!(rt; table.reduce(work.as_mut_slice()), Ok((3, 2)));
        assert_eq!(rt;
            quads(table, work.as_mut_slice()),
            [Ok(Answer::Weighs(1, 148)); 6]
        );
        Ok(())
    })
}

// The chain of 48 states, or the ring of them, in which all are accepting.
fn chain_or_ring(draft: &mut Draft<'_, Residue>, all: bool) -> Result<(), Fail> {
    links(draft, 3)?;
    if all {
        draft.add(1, &[47], 0, Residue::read(3)?)?;
        for q in 0..47 {
            draft.accept(q)?;
        }
    }
    Ok(())
}

// With one accepting state at the end of the chain no two states are equivalent; in a ring of accepting states all are. 3⁴⁸ is 2.
#[test]
fn chains_of_48_states(rt: HostRuntime) -> Result<(), Fail> {
    let heap = rt.alloc();
    let list = stack(heap, 47, |k| over(1, k))?;
    let mut work = vec![in heap; Place::blank(); 48]?;
    for (all, left, state) in [(false, 48, 47), (true, 1, 0)] {
        with_table(
            heap,
            &measured(&[0, 1], 48)?,
            49,
            |draft| chain_or_ring(draft, all),
            |table| {
                assert_eq!(rt;
                    answer_of(table.weigh(list.as_slice(), work.as_mut_slice())),
                    Ok(Answer::Weighs(47, 2))
                );
                assert_eq!(rt;
                    table.reduce(cut(work.as_mut_slice(), 47)),
                    Err(Refusal::Short)
                );
                assert_eq!(rt; table.reduce(work.as_mut_slice()), Ok((48, left)));
                assert_eq!(rt;
                    answer_of(table.weigh(list.as_slice(), work.as_mut_slice())),
                    Ok(Answer::Weighs(state, 2))
                );
                Ok(())
            },
        )?;
    }
    Ok(())
}

// A ring of rules 1(q) → q + 1 / 3 for 47 states, and rules 2(q) → 47 to the accepting state, whose weights begin with one and are multiplied by
// `fall` from state to state. The rule that closes the ring has the last of these weights.
fn ring(draft: &mut Draft<'_, Residue>, fall: Residue) -> Result<(), Fail> {
    draft.accept(47)?;
    draft.add(0, &[], 0, Residue::one())?;
    let step = Residue::read(3)?;
    let mut weight = Residue::one();
    for q in 0..47usize {
        draft.add(2, &[q], 47, weight)?;
        if q < 46 {
            draft.add(1, &[q], q + 1, step)?;
            weight = weight.times(fall);
        } else {
            draft.add(1, &[q], 0, weight)?;
        }
    }
    Ok(())
}

// If the weights fall by a factor 3, the 47 states are equivalent, each with a factor of its own. If they are all one, no two states are.
#[test]
fn rings_of_47_states(rt: HostRuntime) -> Result<(), Fail> {
    let heap = rt.alloc();
    let mut work = vec![in heap; Place::blank(); 48]?;
    for (fall, left) in [(86, 2), (1, 48)] {
        with_table(
            heap,
            &measured(&[0, 1, 1], 48)?,
            95,
            |draft| ring(draft, Residue::read(fall)?),
            |table| {
                assert_eq!(rt; table.reduce(work.as_mut_slice()), Ok((48, left)));
                Ok(())
            },
        )?;
    }
    Ok(())
}
