// Known weights, and weighing at its limits.
use crate::lines::{measured, with_chain, with_table};
use crate::places::{NO_SYMBOL, cut, marked};
use crate::{Answer, answer_of, doubling, fork, forks, leaf, over};
use kinds::{Cost, Kind, Marks, Residue};
use rules::{Measure, Place};
use std::alloc::Global;
use std::test::*;

// What the chain with these weights says of the tree 1(0).
fn chained<W: Kind + Clone>(heap: Global, low: i64, high: i64) -> Result<Answer, Fail> {
    with_chain::<W, _, _>(heap, low, high, |table| {
        let mut work = vec![in heap; Place::blank(); 2]?;
        let weighing = table.weigh(&[leaf(0), over(1, 0)], work.as_mut_slice())?;
        Ok(Answer::from(weighing))
    })
}

#[test]
fn weights_at_their_limits(rt: HostRuntime) -> Result<(), Fail> {
    let heap = rt.alloc();
    assert_eq!(rt; chained::<Marks>(heap, 1, 1)?, Answer::Weighs(1, 1));
    for (low, high, product) in [
        (4, 8, 32),
        (1, 256, 256),
        (256, 256, 1),
        (16, 16, 256),
        (2, 129, 1),
    ] {
        assert_eq!(rt;
            chained::<Residue>(heap, low, high)?,
            Answer::Weighs(1, product)
        );
    }
    let most = 2147483647;
    let least = -2147483648;
    for (low, high, sum) in [
        (most, 0, most),
        (most, 1, least),
        (least, -1, most),
        (least, least, 0),
        (most, most, -2),
        (-7, 3, -4),
    ] {
        assert_eq!(rt; chained::<Cost>(heap, low, high)?, Answer::Weighs(1, sum));
    }
    Ok(())
}

#[test]
fn three_answers(rt: HostRuntime) -> Result<(), Fail> {
    let heap = rt.alloc();
    let list = [leaf(0), over(1, 0), over(1, 1)];
    let (first, middle) = (&list[0..1], &list[0..2]);
    with_chain::<Residue, _, _>(heap, 4, 8, |table| {
        let mut work = vec![in heap; Place::blank(); 3]?;
        let answers = [
            answer_of(table.weigh(first, work.as_mut_slice())),
            answer_of(table.weigh(middle, work.as_mut_slice())),
            answer_of(table.weigh(&list, work.as_mut_slice())),
        ];
        assert_eq!(rt;
            answers,
            [
                Ok(Answer::Ended(0)),
                Ok(Answer::Weighs(1, 32)),
                Ok(Answer::NoRun),
            ]
        );
        Ok(())
    })
}

#[test]
fn refused_weighings(rt: HostRuntime) -> Result<(), Fail> {
    let heap = rt.alloc();
    with_chain::<Residue, _, _>(heap, 4, 8, |table| {
        // places that no call of weigh leaves behind
        let mark = Place {
            mark: None,
            ..marked()
        };
        let mut work = vec![in heap; mark; 2]?;
        // the child of the last entry, the places, the answer, and how many marks are left:
        // the list comes before the work list, a refused call writes nothing, and the table is as before
        let cases = [
            (1, 0, Err(10), 2),
            (1, 1, Err(10), 2),
            (1, 2, Err(10), 2),
            (0, 0, Err(12), 2),
            (0, 1, Err(12), 2),
            (0, 2, Ok(Answer::Weighs(1, 32)), 0),
        ];
        for (child, places, answer, marks) in cases {
            let list = [leaf(0), over(1, child)];
            assert_eq!(rt;
                answer_of(table.weigh(&list, cut(work.as_mut_slice(), places))),
                answer
            );
            let left = work
                .iter()
                .filter(|place| place.node.symbol == NO_SYMBOL)
                .count();
            assert_eq!(rt; left, marks);
        }
        assert_eq!(rt; answer_of(table.weigh(&[], work.as_mut_slice())), Err(10));
        Ok(())
    })
}

// Entries that are shared: 2⁴⁰ - 1 nodes, and 2³⁹ + 1 nodes. With leaves of weight 4 and forks of weight 3,
// the exponents of a full tree of height h are 2ʰ and 2ʰ - 1, modulo 256 those of 4⁰ · 3⁻¹.
#[test]
fn shared_entries(rt: HostRuntime) -> Result<(), Fail> {
    let heap = rt.alloc();
    with_table(
        heap,
        &measured(&[0, 2], 1)?,
        2,
        |draft| Ok(forks(draft, Residue::read(4)?, Residue::read(3)?)?),
        |table| {
            let mut work = vec![in heap; Place::blank(); 40]?;
            let full = doubling(heap, 39)?;
            assert_eq!(rt; full.len(), 40);
            assert_eq!(rt;
                answer_of(table.weigh(full.as_slice(), work.as_mut_slice())),
                Ok(Answer::Weighs(0, 86))
            );
            let mut more = doubling(heap, 38)?;
            more.push(fork(1, 38, 0))?;
            assert_eq!(rt;
                answer_of(table.weigh(more.as_slice(), work.as_mut_slice())),
                Ok(Answer::Weighs(0, 4))
            );
            let small = doubling(heap, 3)?;
            assert_eq!(rt;
                answer_of(table.weigh(small.as_slice(), work.as_mut_slice())),
                Ok(Answer::Weighs(0, 131))
            );
            Ok(())
        },
    )
}

#[test]
fn long_lists(rt: HostRuntime) -> Result<(), Fail> {
    let heap = rt.alloc();
    with_table(
        heap,
        &Measure::fresh().with_states(1),
        1,
        |draft| {
            draft.accept(0)?;
            Ok(draft.add(0, &[], 0, Marks::one())?)
        },
        |table| {
            let cases = [
                (8192, 8192, Ok(Answer::Weighs(0, 1))),
                (8192, 8191, Err(12)),
                (8193, 8193, Err(10)),
                (1, 8193, Ok(Answer::Weighs(0, 1))),
            ];
            for (entries, places, answer) in cases {
                let list = vec![in heap; leaf(0); entries]?;
                let mut work = vec![in heap; Place::blank(); places]?;
                assert_eq!(rt;
                    answer_of(table.weigh(list.as_slice(), work.as_mut_slice())),
                    answer
                );
            }
            Ok(())
        },
    )
}
