// A kind of weight. Its laws speak of weights; a value stands for one weight, and two values may stand for the same one.
ghost use Rattle.std.specs.Prelude.{◌≡◌, true, ◌↔◌};
ghost use Rattle.kinds.specs.Weights.{Weights};
ghost use Rattle.kinds.specs.Reading.{Reads};

use crate::refusal::KindRefusal;

pub trait Kind: Copy {
    // what the values stand for
    type Weight;

    // the number by which a page names the kind
    const NUMBER: u8;

    ghost weights: { Weights Self.Weight };

    ghost stands: { Self → Self.Weight };

    fn one() -> Self
        ensures { stands result ≡ weights.one };

    fn times(self, other: Self) -> Self
        ensures { stands result ≡ weights.times (stands self) (stands other) };

    fn inverse(self) -> Self
        ensures { stands result ≡ weights.inverse (stands self) };

    // told by the codes, which differ for different weights
    fn same(self, other: Self) -> bool
        ensures { (result ≡ true) ↔ (stands self ≡ stands other) }
    {
        self.code() == other.code()
    }

    fn code(self) -> i64
        ensures { result ≡ weights.code (stands self) };

    fn read(code: i64) -> Result<Self, KindRefusal>
        ensures { Reads weights stands code result };
}
