// Comparisons at known values and at their limits.
use crate::lines::{Line, fill, links, measured, with_chain, with_table};
use crate::places::{count_marked, count_untouched, cut, marked, untouched};
use crate::witnesses::{compared, compared_both_ways};
use crate::{Answer, answer_of, leaf, over};
use comparison::Comparison;
use kinds::{Cost, Kind, Marks, Residue};
use rules::Place;
use std::alloc::Global;
use std::process::Abort;
use std::test::*;
use tables::Closed;
use trees::Refusal;

// Compares the chain with two weights with that with two others.
fn chains<W: Kind + Clone>(
    rt: &(impl Abort + AllocGlobal),
    codes: [i64; 4],
) -> Result<Option<usize>, Fail> {
    let [a, b, c, d] = codes;
    with_chain::<W, _, _>(rt.alloc(), a, b, |first| {
        with_chain(
            rt.alloc(),
            c,
            d,
            |second| compared(rt, &[0, 1], 18, first, second),
        )
    })
}

#[test]
fn chains_of_every_kind(rt: HostRuntime) -> Result<(), Fail> {
    assert_eq!(rt; chains::<Residue>(&rt, [4, 8, 2, 16])?, None);
    assert_eq!(rt; chains::<Residue>(&rt, [4, 8, 2, 15])?, Some(2));
    assert_eq!(rt; chains::<Residue>(&rt, [256, 256, 1, 1])?, None);
    assert_eq!(rt; chains::<Residue>(&rt, [256, 1, 1, 1])?, Some(2));
    assert_eq!(rt; chains::<Marks>(&rt, [1; 4])?, None);
    Ok(())
}

#[test]
fn chains_of_costs(rt: HostRuntime) -> Result<(), Fail> {
    let most = 2147483647;
    let least = -2147483648;
    for (codes, entries) in [
        ([most, 1, least, 0], None),
        ([0, least, least, 0], None),
        ([most, most, -1, -1], None),
        ([0, 0, 0, least], Some(2)),
        ([most, 0, least, 0], Some(2)),
        ([most, 1, most, 0], Some(2)),
    ] {
        assert_eq!(rt; chains::<Cost>(&rt, codes)?, entries);
    }
    Ok(())
}

// A table over leaves 0, 1 and the unary 2: its number of states, its accepting states and its rules.
#[derive(Clone, Copy)]
struct Side<'a> {
    states: usize,
    accepting: &'a [usize],
    lines: &'a [Line<'a>],
}

// The ranks of such a table.
const RANKS: [usize; 3] = [0, 0, 1];

impl<'a> Side<'a> {
    fn new(states: usize, accepting: &'a [usize], lines: &'a [Line<'a>]) -> Side<'a> {
        Side {
            states,
            accepting,
            lines,
        }
    }

    // Hands on the table.
    fn with_table<T, F: FnOnce(&mut Closed<'_, Residue>) -> Result<T, Fail>>(
        self,
        heap: Global,
        then: F,
    ) -> Result<T, Fail>
        requires { F.IsAlwaysCallable then }
    {
        with_table(
            heap,
            &measured(&RANKS, self.states)?,
            8,
            |draft| fill(draft, self.accepting, self.lines),
            then,
        )
    }
}

// Compares two such tables, in both orders.
fn lined(
    rt: &(impl Abort + AllocGlobal),
    one: Side<'_>,
    other: Side<'_>,
) -> Result<[Option<usize>; 2], Fail> {
    one.with_table(rt.alloc(), |first| {
        other.with_table(
            rt.alloc(),
            |second| compared_both_ways(rt, &RANKS, 50, first, second),
        )
    })
}

#[test]
fn tables_in_which_nothing_weighs(rt: HostRuntime) -> Result<(), Fail> {
    let lines = [Line::new(0, &[], 0, 4), Line::new(2, &[0], 1, 8)];
    assert_eq!(rt;
        lined(&rt, Side::new(0, &[], &[]), Side::new(2, &[], &lines))?,
        [None; 2]
    );
    assert_eq!(rt;
        lined(&rt, Side::new(0, &[], &[]), Side::new(0, &[], &[]))?,
        [None; 2]
    );
    // an accepting state that no tree has
    assert_eq!(rt;
        lined(&rt, Side::new(0, &[], &[]), Side::new(3, &[2], &lines))?,
        [None; 2]
    );
    assert_eq!(rt;
        lined(&rt, Side::new(0, &[], &[]), Side::new(2, &[1], &lines))?,
        [Some(2); 2]
    );
    assert_eq!(rt;
        lined(&rt, Side::new(2, &[], &lines), Side::new(2, &[1], &lines))?,
        [Some(2); 2]
    );
    assert_eq!(rt;
        lined(
            &rt,
            Side::new(2, &[0, 1], &lines),
            Side::new(2, &[1], &lines)
        )?,
        [Some(1); 2]
    );
    Ok(())
}

#[test]
fn leaves_and_unary_symbols(rt: HostRuntime) -> Result<(), Fail> {
    let two = [
        Line::new(0, &[], 0, 3),
        Line::new(1, &[], 1, 6),
        Line::new(2, &[0], 2, 10),
        Line::new(2, &[1], 2, 5),
    ];
    let one = [
        Line::new(1, &[], 1, 1),
        Line::new(0, &[], 1, 1),
        Line::new(2, &[1], 0, 30),
    ];
    assert_eq!(rt;
        lined(&rt, Side::new(3, &[2], &two), Side::new(2, &[0], &one))?,
        [None; 2]
    );
    // a leaf without a rule, and a leaf that weighs something
    assert_eq!(rt;
        lined(
            &rt,
            Side::new(3, &[2], &two),
            Side::new(2, &[0], &one[1..3])
        )?,
        [Some(2); 2]
    );
    assert_eq!(rt;
        lined(&rt, Side::new(3, &[2], &two), Side::new(2, &[0, 1], &one))?,
        [Some(1); 2]
    );
    assert_eq!(rt;
        lined(&rt, Side::new(3, &[2, 1], &two), Side::new(2, &[0], &one))?,
        [Some(1); 2]
    );
    Ok(())
}

// Hands on the table of the rules 0 → 0 / low and 1(0, 0, 0, 0) → 1 / high, with state 1 accepting.
fn with_four<T, F: FnOnce(&mut Closed<'_, Residue>) -> Result<T, Fail>>(
    heap: Global,
    low: i64,
    high: i64,
    then: F,
) -> Result<T, Fail>
    requires { F.IsAlwaysCallable then }
{
    let lines = [Line::new(0, &[], 0, low), Line::new(1, &[0; 4], 1, high)];
    with_table(
        heap,
        &measured(&[0, 4], 2)?,
        2,
        |draft| fill(draft, &[1], &lines),
        then,
    )
}

// Compares two such tables.
fn fours(rt: &(impl Abort + AllocGlobal), codes: [i64; 4]) -> Result<Option<usize>, Fail> {
    let [a, b, c, d] = codes;
    with_four(rt.alloc(), a, b, |first| {
        with_four(
            rt.alloc(),
            c,
            d,
            |second| compared(rt, &[0, 4], 18, first, second),
        )
    })
}

// 2⁴ is 16, and 16 · 241 is 1.
#[test]
fn symbols_of_rank_4(rt: HostRuntime) -> Result<(), Fail> {
    assert_eq!(rt; fours(&rt, [1, 16, 2, 1])?, None);
    assert_eq!(rt; fours(&rt, [1, 1, 2, 241])?, None);
    assert_eq!(rt; fours(&rt, [1, 1, 256, 1])?, None);
    assert_ne!(rt; fours(&rt, [1, 2, 2, 1])?, None);
    assert_ne!(rt; fours(&rt, [3, 5, 3, 6])?, None);
    Ok(())
}

// What a table says of 1(0).
fn weighed(table: &mut Closed<'_, Residue>) -> Result<Answer, u8> {
    let mut work = [Place::blank(); 2];
    answer_of(table.weigh(&[leaf(0), over(1, 0)], &mut work))
}

// For two tables of two states: both lists are measured, and a refused comparison leaves lists and tables as they were.
fn check_short_lists(
    rt: &(impl Abort + AllocGlobal),
    first: &mut Closed<'_, Residue>,
    second: &mut Closed<'_, Residue>,
) -> Result<(), Fail> {
    let mut list = vec![in rt.alloc(); untouched(); 20]?;
    let mut work = vec![in rt.alloc(); marked(); 20]?;
    for (entries, places) in [(17, 18), (18, 17), (17, 17), (0, 20), (20, 0), (0, 0)] {
        let answer = first.compare(
            second,
            cut(list.as_mut_slice(), entries),
            cut(work.as_mut_slice(), places),
        );
        assert_eq!(rt; answer, Err(Refusal::Short));
        assert_eq!(rt;
            [
                count_untouched(list.as_slice()),
                count_marked(work.as_slice()),
            ],
            [20, 20]
        );
        assert_eq!(rt;
            [weighed(first), weighed(second)],
            [Ok(Answer::Weighs(1, 32)), Ok(Answer::Weighs(1, 30))]
        );
    }
    let answer = first.compare(
        second,
        cut(list.as_mut_slice(), 18),
        cut(work.as_mut_slice(), 18),
    );
    assert_eq!(rt; answer, Ok(Comparison::Different { entries: 2 }));
    assert_eq!(rt; count_untouched(list.as_slice()), 18);
    assert_eq!(rt;
        [weighed(first), weighed(second)],
        [Ok(Answer::Weighs(1, 32)), Ok(Answer::Weighs(1, 30))]
    );
    Ok(())
}

#[test]
fn short_lists(rt: HostRuntime) -> Result<(), Fail> {
    with_chain(rt.alloc(), 4, 8, |first| {
        with_chain(
            rt.alloc(),
            2,
            15,
            |second| check_short_lists(&rt, first, second),
        )
    })
}

// Hands on a table with these ranks, one state and no rules.
fn with_ranks<T, F: FnOnce(&mut Closed<'_, Residue>) -> Result<T, Fail>>(
    heap: Global,
    ranks: &[usize],
    then: F,
) -> Result<T, Fail>
    requires { F.IsAlwaysCallable then }
{
    with_table(heap, &measured(ranks, 1)?, 1, |_| Ok(()), then)
}

// Compares two tables with lists of so many places; a refused comparison leaves the lists as they were.
fn compare_in(
    rt: &(impl Abort + AllocGlobal),
    first: &mut Closed<'_, Residue>,
    second: &mut Closed<'_, Residue>,
    places: usize,
) -> Result<Result<Comparison, Refusal>, Fail> {
    let mut list = vec![in rt.alloc(); untouched(); 9]?;
    let mut work = vec![in rt.alloc(); marked(); 9]?;
    let answer = first.compare(
        second,
        cut(list.as_mut_slice(), places),
        cut(work.as_mut_slice(), places),
    );
    assert_eq!(rt; count_untouched(list.as_slice()), 9);
    if answer.is_err() {
        assert_eq!(rt; count_marked(work.as_slice()), 9);
    }
    Ok(answer)
}

// The answer for tables without rules over these ranks.
fn over_ranks(
    rt: &(impl Abort + AllocGlobal),
    first_ranks: &[usize],
    second_ranks: &[usize],
    places: usize,
) -> Result<Result<Comparison, Refusal>, Fail> {
    with_ranks(rt.alloc(), first_ranks, |first| {
        with_ranks(
            rt.alloc(),
            second_ranks,
            |second| compare_in(rt, first, second, places),
        )
    })
}

#[test]
fn other_alphabets(rt: HostRuntime) -> Result<(), Fail> {
    let ranks = [0, 1, 2, 0];
    // the alphabets come before the lists
    for places in [0, 7, 9] {
        for part in [&ranks[0..3], &ranks[1..4], &ranks[0..1]] {
            assert_eq!(rt;
                over_ranks(&rt, &ranks, part, places)?,
                Err(Refusal::Alphabets)
            );
            assert_eq!(rt;
                over_ranks(&rt, part, &ranks, places)?,
                Err(Refusal::Alphabets)
            );
        }
        for other in [[0, 2, 1, 0], [0, 1, 2, 1]] {
            assert_eq!(rt;
                over_ranks(&rt, &ranks, &other, places)?,
                Err(Refusal::Alphabets)
            );
        }
    }
    assert_eq!(rt; over_ranks(&rt, &ranks, &ranks, 7)?, Err(Refusal::Short));
    assert_eq!(rt; over_ranks(&rt, &ranks, &ranks, 8)?, Ok(Comparison::Same));
    assert_eq!(rt;
        over_ranks(&rt, &[0; 32], &[0; 32], 9)?,
        Ok(Comparison::Same)
    );
    assert_eq!(rt;
        over_ranks(&rt, &[0; 32], &[0; 31], 9)?,
        Err(Refusal::Alphabets)
    );
    Ok(())
}

// Hands on the chain of 48 states whose last weight is given.
fn with_links<T, F: FnOnce(&mut Closed<'_, Residue>) -> Result<T, Fail>>(
    heap: Global,
    last: i64,
    then: F,
) -> Result<T, Fail>
    requires { F.IsAlwaysCallable then }
{
    with_table(
        heap,
        &measured(&[0, 1], 48)?,
        48,
        |draft| links(draft, last),
        then,
    )
}

// Only the tree of 48 nodes weighs something. 4,802 places are the most that are needed.
fn long_chains(
    rt: &(impl Abort + AllocGlobal),
    last: i64,
    places: usize,
) -> Result<Option<usize>, Fail> {
    with_links(rt.alloc(), 3, |first| {
        with_links(rt.alloc(), last, |second| {
            first.push(5, Residue::read(7)?)?;
            compared(rt, &[0, 1], places, first, second)
        })
    })
}

#[test]
fn chains_of_48_states(rt: HostRuntime) -> Result<(), Fail> {
    assert_eq!(rt; long_chains(&rt, 3, 4802)?, None);
    assert_eq!(rt; long_chains(&rt, 4, 4802)?, Some(48));
    assert_eq!(rt; long_chains(&rt, 4, 5000)?, Some(48));
    Ok(())
}
