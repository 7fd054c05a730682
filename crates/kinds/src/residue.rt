// Residues: the numbers 1 to 256. The product is taken modulo 257.
ghost use Rattle.std.specs.Prelude.{◌≡◌, ◌-◌, ◌*◌, ◌%◌, ◌^◌, ◌≤◌, ◌↔◌, pos, ◌≤ℤ◌, true, is_ok};

use crate::kind::Kind;
use crate::refusal::KindRefusal;

#[derive(Clone, Copy, PartialEq, Eq, Debug)]
pub struct Residue {
    code: u16,
    ghost low: { 1 ≤ code },
    ghost high: { code ≤ 256 },
}

impl Residue {
    // a to the power 2ⁿ - 1, by n turns from aᵐ to a²ᵐ⁺¹
    fn power(self, turns: u8) -> Residue
        ensures { result.code ≡ self.code ^ (2 ^ turns - 1) % 257 }
    {
        (0..turns).fold(Residue::one(), |power, _| power.times(power).times(self))
    }
}

impl Kind for Residue {
    ghost use Rattle.kinds.specs.Reading.{Reads};
    ghost use Rattle.kinds.specs.Residues.{residues};

    type Weight = Residue;

    const NUMBER: u8 = 2;

    ghost weights = { residues };

    ghost stands = { λ v. v };

    fn one() -> Residue
        ensures kind { result ≡ residues.one }
        ensures number { result.code ≡ 1 }
    {
        Residue { code: 1 }
    }

    #[tactic(auto, using(crate::specs::ResidueLaws::product_low))]
    fn times(self, other: Residue) -> Residue
        ensures kind { result ≡ residues.times self other }
        ensures number { result.code ≡ self.code * other.code % 257 }
    {
        let product = u32::from(self.code) * u32::from(other.code) % 257;
        Residue {
            code: product as u16,
        }
    }

    // a²⁵⁵
    fn inverse(self) -> Residue
        ensures kind { result ≡ residues.inverse self }
        ensures number { result.code ≡ self.code ^ 255 % 257 }
    {
        self.power(8)
    }

    fn same(self, other: Residue) -> bool
        ensures kind { (result ≡ true) ↔ (self ≡ other) }
        ensures number { (result ≡ true) ↔ (self.code ≡ other.code) }
    {
        self.code == other.code
    }

    fn code(self) -> i64
        ensures kind { result ≡ residues.code self }
        ensures number { result ≡ pos self.code }
    {
        i64::from(self.code)
    }

    fn read(code: i64) -> Result<Residue, KindRefusal>
        ensures kind { Reads residues (λ v. v) code result }
        ensures accepted { (is_ok result ≡ true) ↔ ((pos 1 ≤ℤ code) × (code ≤ℤ pos 256)) }
    {
        match u16::try_from(code) {
            Ok(code @ 1..=256) => Ok(Residue { code }),
            _ => Err(KindRefusal::NoWeight),
        }
    }
}
