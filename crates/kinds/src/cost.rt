// Costs: the numbers from -2,147,483,648 to 2,147,483,647. The product is the sum, brought into the range.
ghost use Rattle.std.specs.Prelude.{◌≡◌, ◌↔◌, pos, negsuc, ◌+ℤ◌, ◌≤ℤ◌, true, is_ok};

use crate::kind::Kind;
use crate::refusal::KindRefusal;

#[derive(Clone, Copy, PartialEq, Eq, Debug)]
pub struct Cost {
    code: i32,
    ghost low: { negsuc 2_147_483_647 ≤ℤ code },
    ghost high: { code ≤ℤ pos 2_147_483_647 },
}

// the cost with this code
impl From<i32> for Cost {
    ghost use Rattle.kinds.specs.Costs.{cost};

    ghost from_gives = { λ code c. c ≡ cost code };

    #[tactic(auto, unfolding(crate::specs::Costs::cost))]
    fn from(code: i32) -> Cost
        ensures kind { result ≡ cost code }
        ensures number { result.code ≡ code }
    {
        Cost { code }
    }
}

impl Kind for Cost {
    ghost use Rattle.kinds.specs.Costs.{costs};
    ghost use Rattle.kinds.specs.CostSums.{into_range, opposite};
    ghost use Rattle.kinds.specs.Reading.{Reads};

    type Weight = Cost;

    const NUMBER: u8 = 3;

    ghost weights = { costs };

    ghost stands = { λ v. v };

    fn one() -> Cost
        ensures kind { result ≡ costs.one }
        ensures number { result.code ≡ pos 0 }
    {
        Cost::from(0)
    }

    fn times(self, other: Cost) -> Cost
        ensures kind { result ≡ costs.times self other }
        ensures number { result.code ≡ into_range (self.code +ℤ other.code) }
    {
        Cost::from(self.code.wrapping_add(other.code))
    }

    fn inverse(self) -> Cost
        ensures kind { result ≡ costs.inverse self }
        ensures number { result.code ≡ opposite self.code }
    {
        Cost::from(self.code.wrapping_neg())
    }

    fn same(self, other: Cost) -> bool
        ensures kind { (result ≡ true) ↔ (self ≡ other) }
        ensures number { (result ≡ true) ↔ (self.code ≡ other.code) }
    {
        self.code == other.code
    }

    fn code(self) -> i64
        ensures kind { result ≡ costs.code self }
        ensures number { result ≡ self.code }
    {
        i64::from(self.code)
    }

    fn read(code: i64) -> Result<Cost, KindRefusal>
        ensures kind { Reads costs (λ v. v) code result }
        ensures accepted { (is_ok result ≡ true) ↔ ((negsuc 2_147_483_647 ≤ℤ code) × (code ≤ℤ pos 2_147_483_647)) }
    {
        match i32::try_from(code) {
            Ok(code) => Ok(Cost::from(code)),
            Err(_) => Err(KindRefusal::NoWeight),
        }
    }
}
