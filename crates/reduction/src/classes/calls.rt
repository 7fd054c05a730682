// What classes answer.
ghost use Rattle.std.specs.Prelude.{◌≡◌};
ghost use Rattle.reduction.specs.Classes.{class_at};

use crate::classes::Classes;

impl Classes {
    // The class of a state, if it stays.
    pub fn class(&self, state: usize) -> Option<u8>
        ensures { result ≡ class_at self.now state }
    {
        self.of.get(state).copied().flatten()
    }
}
