// What ends the reading of a page: a fault, or want of memory.
ghost use Rattle.std.specs.Prelude.{◌≡◌};
ghost use Rattle.pages.specs.declared.fault.Fault.TheVariants.{Kind, Table};
ghost use Rattle.pages.specs.declared.trouble.Trouble.TheVariants.{Fault as refused, NoMemory};

use crate::at::At;
use crate::fault::Fault;
use kinds::KindRefusal;
use std::alloc::AllocError;
use trees::Refusal;

#[derive(Clone, Copy, PartialEq, Eq, Debug)]
pub enum Trouble {
    Fault(Fault),
    NoMemory,
}

impl From<Fault> for Trouble {
    ghost from_gives = { λ fault r. r ≡ refused fault };

    fn from(fault: Fault) -> Trouble {
        Trouble::Fault(fault)
    }
}

impl From<At<KindRefusal>> for Trouble {
    ghost from_gives = { λ at r. r ≡ refused (Kind at.line at.error) };

    fn from(at: At<KindRefusal>) -> Trouble {
        let At {
            line,
            error: refusal,
        } = at;
        Trouble::Fault(Fault::Kind { line, refusal })
    }
}

impl From<At<Refusal>> for Trouble {
    ghost from_gives = { λ at r. r ≡ refused (Table at.line at.error) };

    fn from(at: At<Refusal>) -> Trouble {
        let At {
            line,
            error: refusal,
        } = at;
        Trouble::Fault(Fault::Table { line, refusal })
    }
}

impl From<AllocError> for Trouble {
    ghost from_gives = { λ _ r. r ≡ NoMemory };

    fn from(_e: AllocError) -> Trouble {
        Trouble::NoMemory
    }
}
