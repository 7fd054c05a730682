// The calls on plain rules, at huge arguments.
use crate::{Answer, answer_of, leaf};
use kinds::{Kind, Marks};
use rules::{
    Measure, Place, Rule, Shape, Side, Table, append, find, rule_for, run_node, run_of, weigh,
};
use std::test::*;
use trees::Refusal;

#[test]
fn shapes(rt: HostRuntime) -> Result<(), Fail> {
    let mut measure = Measure::fresh();
    measure.measure(&[0, 3], 48)?;
    let mut shape = Shape::new(&measure);
    assert_eq!(rt;
        [shape.rank(1), shape.rank(2), shape.rank(usize::MAX)],
        [3, 0, 0]
    );
    assert_eq!(rt; shape.accept(47), Ok(()));
    assert_eq!(rt; shape.accept(48), Err(Refusal::State));
    for (state, marked) in [
        (0, false),
        (46, false),
        (47, true),
        (48, false),
        (usize::MAX, false),
    ] {
        assert_eq!(rt; shape.is_accepting(state), marked);
    }
    let other = shape.regrouped(usize::MAX, [true; 48]);
    assert_eq!(rt; [other.states(), other.alphabet().len()], [48, 2]);
    assert_eq!(rt;
        [other.is_accepting(0), other.is_accepting(48)],
        [true, false]
    );
    assert_eq!(rt; [shape.states(), shape.alphabet().len()], [48, 2]);
    Ok(())
}

#[test]
fn huge_arguments(rt: HostRuntime) -> Result<(), Fail> {
    let most = usize::MAX;
    let shape = Shape::new(&Measure::fresh().with_states(48));
    let mut memory = vec![in rt.alloc(); Rule::<Marks>::blank(); 2]?;
    let one = Marks::one();
    // a blank rule has the left side 0()
    assert_eq!(rt;
        append(&shape, memory.as_mut_slice(), 0, 0, &[], 9, one),
        Ok(1)
    );
    assert_eq!(rt;
        append(&shape, memory.as_mut_slice(), 1, 0, &[], 9, one),
        Err(Refusal::Taken)
    );
    assert_eq!(rt;
        append(&shape, memory.as_mut_slice(), most, 0, &[], 9, one),
        Err(Refusal::Taken)
    );
    assert_eq!(rt;
        append(
            &shape,
            memory.as_mut_slice(),
            most,
            most,
            &[most; 5],
            most,
            one,
        ),
        Err(Refusal::Symbol)
    );
    assert_eq!(rt; find(memory.as_slice(), 0, &[]), Some(0));
    assert_eq!(rt; find(memory.as_slice(), most, &[most; 5]), None);
    assert!(rt; rule_for(memory.as_slice(), most, &[]).is_none());
    let mut work = vec![in rt.alloc(); Place::blank(); 1]?;
    assert!(rt; run_of(work.as_slice(), Side::First, most).is_none());
    assert!(rt;
        run_node(
            &Table::of_first(&shape, memory.as_slice(), most),
            &leaf(most),
            work.as_slice(),
            Side::Second,
        )
        .is_none()
    );
    let weighed = weigh(
        &shape,
        memory.as_mut_slice(),
        most,
        &[leaf(0)],
        work.as_mut_slice(),
    );
    assert_eq!(rt; answer_of(weighed), Ok(Answer::Ended(9)));
    Ok(())
}
