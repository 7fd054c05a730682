// Tree lists at their limits.
use crate::{fork, leaf, node, over};
use std::test::*;
use trees::{Alphabet, Refusal, check_list};

#[test]
fn lengths_at_their_limits(rt: HostRuntime) -> Result<(), Fail> {
    let alphabet = Alphabet::fresh();
    let mut list = vec![in rt.alloc(); leaf(0); 8192]?;
    assert_eq!(rt; check_list(&alphabet, list.as_slice()), Ok(()));
    list.push(leaf(0))?;
    assert_eq!(rt;
        check_list(&alphabet, list.as_slice()),
        Err(Refusal::TreeList(0))
    );
    assert_eq!(rt; check_list(&alphabet, &[]), Err(Refusal::TreeList(0)));
    Ok(())
}

#[test]
fn entries_at_their_limits(rt: HostRuntime) -> Result<(), Fail> {
    let most = usize::MAX;
    let alphabet = Alphabet::new(&[0, 1, 2, 4])?;
    let good = [leaf(0), over(1, 0), fork(2, 1, 0), node(3, [2, 1, 0, 2])];
    assert_eq!(rt; check_list(&alphabet, &good), Ok(()));
    // each stands for one of the entries
    let cases = [
        (0, leaf(4)),
        (0, leaf(most)),
        (0, over(0, 1)),
        (0, node(0, [0, 0, 0, most])),
        (0, over(1, 0)),
        (1, over(1, 1)),
        (1, over(1, most)),
        (1, fork(1, 0, 1)),
        (2, fork(2, 1, 2)),
        (2, fork(2, 2, 1)),
        (2, node(2, [1, 0, 1, 0])),
        (3, node(3, [0, 0, 0, 3])),
        (3, node(3, [3, 0, 0, 0])),
        (3, node(2, [0, 0, 0, 1])),
        (3, node(most, [0; 4])),
    ];
    for (entry, bad) in cases {
        let mut list = good;
        assert!(rt; entry < 4);
        list[entry] = bad;
        assert_eq!(rt; check_list(&alphabet, &list), Err(Refusal::TreeList(entry)));
    }
    // the first of two bad entries is named
    let two = [leaf(0), over(1, 1), over(1, 2)];
    assert_eq!(rt; check_list(&alphabet, &two), Err(Refusal::TreeList(1)));
    Ok(())
}
