// Marks: the kind with one weight, whose code is 1.
ghost use Rattle.std.specs.Prelude.{◌≡◌, true, ◌↔◌, pos, is_ok};
ghost use Rattle.kinds.specs.Marks.{marks};
ghost use Rattle.kinds.specs.Reading.{Reads};

use crate::kind::Kind;
use crate::refusal::KindRefusal;

#[derive(Clone, Copy, PartialEq, Eq, Debug)]
pub struct Marks;

impl Kind for Marks {
    type Weight = Marks;

    const NUMBER: u8 = 1;

    ghost weights = { marks };

    ghost stands = { λ v. v };

    fn one() -> Marks {
        Marks
    }

    fn times(self, _other: Marks) -> Marks {
        Marks
    }

    fn inverse(self) -> Marks {
        Marks
    }

    fn same(self, other: Marks) -> bool
        ensures kind { (result ≡ true) ↔ (self ≡ other) }
        ensures always { result ≡ true }
    {
        true
    }

    fn code(self) -> i64
        ensures kind { result ≡ marks.code self }
        ensures number { result ≡ pos 1 }
    {
        1
    }

    fn read(code: i64) -> Result<Marks, KindRefusal>
        ensures kind { Reads marks (λ v. v) code result }
        ensures accepted { (is_ok result ≡ true) ↔ (code ≡ pos 1) }
    {
        if code == 1 {
            Ok(Marks)
        } else {
            Err(KindRefusal::NoWeight)
        }
    }
}
