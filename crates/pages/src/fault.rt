// Why a page is refused, and in which line.
ghost use Rattle.std.specs.Prelude.{◌≡◌};
ghost use Rattle.pages.specs.Faults.{fault_numbers};

use kinds::KindRefusal;
use trees::Refusal;

#[derive(Clone, Copy, PartialEq, Eq, Debug)]
pub enum Fault {
    // it is not in the layout
    Layout { line: usize },
    // no weight has that code
    Kind { line: usize, refusal: KindRefusal },
    // a table refuses it
    Table { line: usize, refusal: Refusal },
}

impl Fault {
    // The line, the layer and the number of the refusal.
    pub fn numbers(&self) -> [usize; 3]
        ensures { result ≡ fault_numbers self.now }
    {
        match self {
            Fault::Layout { line } => [*line, 1, 13],
            Fault::Kind { line, refusal } => [*line, 3, usize::from(refusal.number())],
            Fault::Table { line, refusal } => [*line, 2, usize::from(refusal.number())],
        }
    }
}
