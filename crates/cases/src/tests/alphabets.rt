// Alphabets at their limits.
use std::test::*;
use trees::{Alphabet, Refusal};

fn refusal_of(ranks: &[usize]) -> Option<Refusal> {
    Alphabet::new(ranks).err()
}

#[test]
fn ranks_at_their_limits(rt: HostRuntime) -> Result<(), Fail> {
    let refused = Some(Refusal::Ranks);
    assert_eq!(rt; refusal_of(&[]), refused);
    assert_eq!(rt; refusal_of(&[0]), None);
    assert_eq!(rt; refusal_of(&[4]), None);
    assert_eq!(rt; refusal_of(&[5]), refused);
    assert_eq!(rt; refusal_of(&[usize::MAX]), refused);
    assert_eq!(rt; refusal_of(&[0, 4, 2, 5]), refused);
    assert_eq!(rt; refusal_of(&[4; 32]), None);
    assert_eq!(rt; refusal_of(&[0; 33]), refused);
    assert_eq!(rt; Refusal::Ranks.number(), 1);
    Ok(())
}

#[test]
fn symbols_at_their_limits(rt: HostRuntime) -> Result<(), Fail> {
    let fresh = Alphabet::fresh();
    assert_eq!(rt; fresh.len(), 1);
    assert_eq!(rt; [fresh.rank(0), fresh.rank(1)], [Some(0), None]);
    let mut ranks = [3; 32];
    ranks[0] = 1;
    ranks[31] = 4;
    let alphabet = Alphabet::new(&ranks)?;
    assert_eq!(rt; alphabet.len(), 32);
    assert_eq!(rt; [alphabet.rank(0), alphabet.rank(1)], [Some(1), Some(3)]);
    assert_eq!(rt; [alphabet.rank(31), alphabet.rank(32)], [Some(4), None]);
    assert_eq!(rt; alphabet.rank(usize::MAX), None);
    Ok(())
}
