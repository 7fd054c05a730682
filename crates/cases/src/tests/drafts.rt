// Drafts at their limits.
use crate::lines::measured;
use crate::{Answer, answer_of, leaf, numbered};
use kinds::{Kind, Marks};
use rules::{Measure, Place, Rule};
use std::test::*;
use tables::Draft;

const MOST: usize = usize::MAX;

#[test]
fn rules_at_their_limits(rt: HostRuntime) -> Result<(), Fail> {
    // the symbol, children and target of a rule to add, and the answer, with a refusal by its number
    let cases: [(usize, &[usize], usize, Result<(), u8>); 22] = [
        // 0 symbols are left past 2, and the symbol comes before all else
        (3, &[], 0, Err(4)),
        (MOST, &[MOST; 5], MOST, Err(4)),
        // the number of children comes before the states
        (0, &[MOST], MOST, Err(5)),
        (1, &[], 0, Err(5)),
        (1, &[0; 2], 0, Err(5)),
        (2, &[0; 3], 0, Err(5)),
        (2, &[48; 5], 48, Err(5)),
        // 48 states
        (0, &[], 48, Err(3)),
        (0, &[], MOST, Err(3)),
        (0, &[], 47, Ok(())),
        (1, &[48], 0, Err(3)),
        (1, &[MOST], 0, Err(3)),
        (1, &[47], 47, Ok(())),
        (2, &[0, 0, 0, 48], 0, Err(3)),
        (2, &[48, 0, 0, 0], 0, Err(3)),
        (2, &[47, 0, 0, 47], 0, Ok(())),
        // a left side that is taken, after the states
        (0, &[], 48, Err(3)),
        (0, &[], 0, Err(6)),
        (1, &[47], 3, Err(6)),
        (1, &[46], 47, Ok(())),
        (2, &[47, 0, 0, 47], 47, Err(6)),
        (2, &[47, 0, 47, 0], 47, Ok(())),
    ];
    let measure = measured(&[0, 1, 4], 48)?;
    let mut memory = vec![in rt.alloc(); Rule::blank(); 8]?;
    let mut draft = Draft::<Marks>::open(&measure, memory.as_mut_slice());
    for (i, (symbol, children, target, answer)) in cases.into_iter().enumerate() {
        assert_eq!(rt;
            numbered(draft.add(symbol, children, target, Marks::one())),
            answer,
            "case {i}"
        );
    }
    Ok(())
}

#[test]
fn accepting_states_at_their_limits(rt: HostRuntime) -> Result<(), Fail> {
    let measure = measured(&[0], 48)?;
    let mut memory = vec![in rt.alloc(); Rule::blank(); 1]?;
    let mut draft = Draft::<Marks>::open(&measure, memory.as_mut_slice());
    for (state, answer) in [
        (0, Ok(())),
        (47, Ok(())),
        (48, Err(3)),
        (usize::MAX, Err(3)),
        (47, Ok(())),
    ] {
        assert_eq!(rt; numbered(draft.accept(state)), answer);
    }
    draft.add(0, &[], 47, Marks::one())?;
    let mut table = draft.close();
    let mut work = [Place::blank()];
    assert_eq!(rt;
        answer_of(table.weigh(&[leaf(0)], &mut work)),
        Ok(Answer::Weighs(47, 1))
    );
    Ok(())
}

#[test]
fn a_fresh_measure(rt: HostRuntime) -> Result<(), Fail> {
    let mut memory = vec![in rt.alloc(); Rule::blank(); 1]?;
    let mut draft = Draft::<Marks>::open(&Measure::fresh(), memory.as_mut_slice());
    assert_eq!(rt; numbered(draft.accept(0)), Err(3));
    assert_eq!(rt; numbered(draft.add(0, &[], 0, Marks::one())), Err(3));
    assert_eq!(rt; numbered(draft.add(1, &[], 0, Marks::one())), Err(4));
    assert_eq!(rt; numbered(draft.add(0, &[0], 0, Marks::one())), Err(5));
    let mut table = draft.close();
    let mut work = [Place::blank()];
    assert_eq!(rt;
        answer_of(table.weigh(&[leaf(0)], &mut work)),
        Ok(Answer::NoRun)
    );
    Ok(())
}

// Adds rules 0(p, q) → 0 for the first pairs of states, and answers how many were taken and what came of the last.
fn fill(draft: &mut Draft<'_, Marks>, attempts: usize) -> (usize, Result<(), u8>) {
    let mut taken = 0usize;
    let mut last = Ok(());
    for k in 0..attempts {
        last = numbered(draft.add(0, &[k / 48, k % 48], 0, Marks::one()));
        if last.is_ok() {
            taken = taken.saturating_add(1);
        }
    }
    (taken, last)
}

#[test]
fn memory_at_its_limits(rt: HostRuntime) -> Result<(), Fail> {
    let measure = measured(&[2], 48)?;
    let cases = [
        (0, 1, 0, Err(7)),
        (1, 1, 1, Ok(())),
        (1, 2, 1, Err(7)),
        (1023, 1024, 1023, Err(7)),
        (1024, 1024, 1024, Ok(())),
        (1024, 1025, 1024, Err(7)),
        (1025, 1024, 1024, Ok(())),
        (1025, 1025, 1024, Err(7)),
        (1100, 1200, 1024, Err(7)),
    ];
    for (places, attempts, taken, last) in cases {
        let mut memory = vec![in rt.alloc(); Rule::blank(); places]?;
        let mut draft = Draft::<Marks>::open(&measure, memory.as_mut_slice());
        assert_eq!(rt; fill(&mut draft, attempts), (taken, last));
        // a left side that is taken comes before the memory
        let again = numbered(draft.add(0, &[0, 0], 0, Marks::one()));
        assert_eq!(rt; again, Err(if taken == 0 { 7 } else { 6 }));
    }
    Ok(())
}
