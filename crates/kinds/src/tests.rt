// Known values of the three kinds, and a kind whose values say more than their weights.
ghost use Rattle.kinds.specs.Residues.{residues};

use crate::{Cost, Kind, KindRefusal, Marks, Residue};
use std::test::Fail;

// A residue with a tag that means nothing.
#[derive(Clone, Copy)]
struct Tagged {
    residue: Residue,
    tag: u8,
}

impl Kind for Tagged {
    type Weight = Residue;

    const NUMBER: u8 = 255;

    ghost weights = { residues };

    ghost stands = { λ v. v.residue };

    fn one() -> Tagged {
        Tagged {
            residue: Residue::one(),
            tag: 0,
        }
    }

    fn times(self, other: Tagged) -> Tagged {
        Tagged {
            residue: self.residue.times(other.residue),
            tag: self.tag,
        }
    }

    fn inverse(self) -> Tagged {
        Tagged {
            residue: self.residue.inverse(),
            tag: self.tag,
        }
    }

    fn code(self) -> i64 {
        self.residue.code()
    }

    fn read(code: i64) -> Result<Tagged, KindRefusal> {
        let residue = Residue::read(code)?;
        Ok(Tagged { residue, tag: 0 })
    }
}

// the code of what the code is read as, or the refusal's number
fn answer<W: Kind>(code: i64) -> Result<i64, u8> {
    W::read(code).map(|w| w.code()).map_err(|e| e.number())
}

// at the codes around 0 and 257, and at the ends of the argument's type
fn answers<W: Kind>() -> [Result<i64, u8>; 7] {
    [i64::MIN, -1, 0, 1, 256, 257, i64::MAX].map(|code| answer::<W>(code))
}

#[test]
fn reads_codes(rt: HostRuntime) {
    assert_eq!(rt;
        answers::<Marks>(),
        [Err(8), Err(8), Err(8), Ok(1), Err(8), Err(8), Err(8)]
    );
    assert_eq!(rt;
        answers::<Residue>(),
        [Err(8), Err(8), Err(8), Ok(1), Ok(256), Err(8), Err(8)]
    );
    assert_eq!(rt;
        answers::<Cost>(),
        [Err(8), Ok(-1), Ok(0), Ok(1), Ok(256), Ok(257), Err(8)]
    );
    assert_eq!(rt;
        [answer::<Cost>(-2147483648), answer::<Cost>(-2147483649)],
        [Ok(-2147483648), Err(8)]
    );
    assert_eq!(rt;
        [answer::<Cost>(2147483647), answer::<Cost>(2147483648)],
        [Ok(2147483647), Err(8)]
    );
}

#[test]
fn known_values(rt: HostRuntime) -> Result<(), Fail> {
    assert_eq!(rt; [Marks::NUMBER, Residue::NUMBER, Cost::NUMBER], [1, 2, 3]);
    assert_eq!(rt; Residue::read(2)?.inverse().code(), 129);
    let most = Cost::read(2147483647)?;
    let least = Cost::read(-2147483648)?;
    assert_eq!(rt; most.times(Cost::read(1)?).code(), -2147483648);
    assert!(rt; least.inverse().same(least));
    assert_eq!(rt; Cost::from(-7), Cost::read(-7)?);
    Ok(())
}

#[test]
fn tags_mean_nothing(rt: HostRuntime) -> Result<(), Fail> {
    let residue = Residue::read(3)?;
    let a = Tagged { residue, tag: 1 };
    let b = Tagged { residue, tag: 2 };
    assert!(rt; a.same(b));
    assert!(rt; a.times(b.inverse()).same(Tagged::one()));
    assert!(rt; !a.same(a.times(b)));
    Ok(())
}
