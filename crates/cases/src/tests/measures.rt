// Measures at their limits.
use crate::numbered;
use rules::Measure;
use std::test::*;

// How many symbols and states a measure has.
fn size_of(measure: &Measure) -> (usize, usize) {
    (measure.alphabet().len(), measure.states())
}

#[test]
fn sizes_at_their_limits(rt: HostRuntime) -> Result<(), Fail> {
    let mut measure = Measure::fresh();
    assert_eq!(rt; size_of(&measure), (1, 0));
    assert_eq!(rt; numbered(measure.measure(&[0, 4], 48)), Ok(()));
    assert_eq!(rt; size_of(&measure), (2, 48));
    // ranks come before states, and a refused call changes nothing
    assert_eq!(rt; numbered(measure.measure(&[0; 33], 1)), Err(1));
    assert_eq!(rt; numbered(measure.measure(&[], 49)), Err(1));
    assert_eq!(rt; numbered(measure.measure(&[5], usize::MAX)), Err(1));
    assert_eq!(rt; numbered(measure.measure(&[1], 49)), Err(2));
    assert_eq!(rt; numbered(measure.measure(&[1], usize::MAX)), Err(2));
    assert_eq!(rt; size_of(&measure), (2, 48));
    assert_eq!(rt; measure.alphabet().rank(1), Some(4));
    assert_eq!(rt; numbered(measure.measure(&[4; 32], 0)), Ok(()));
    assert_eq!(rt; size_of(&measure), (32, 0));
    Ok(())
}

#[test]
fn other_numbers_of_states(rt: HostRuntime) -> Result<(), Fail> {
    let mut measure = Measure::fresh();
    measure.measure(&[2, 0], 7)?;
    for (states, expected) in [(0, 0), (48, 48), (49, 48), (usize::MAX, 48)] {
        assert_eq!(rt; size_of(&measure.with_states(states)), (2, expected));
    }
    assert_eq!(rt; size_of(&measure), (2, 7));
    Ok(())
}
