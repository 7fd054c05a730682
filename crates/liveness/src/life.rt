// The live states. Each is accepting, or a rule leads it on.
ghost use Rattle.std.specs.Prelude.{◌≡◌};
ghost use Rattle.liveness.specs.Living.{lead_of};

use crate::found::Found;

// A rule that leads a state on, by its place, to a target that was found before, and the state's child place there.
#[derive(Clone, Copy, PartialEq, Eq, Debug)]
pub struct Lead {
    pub rule: usize,
    pub place: usize,
}

pub type Life = Found<Option<Lead>>;

impl Found<Option<Lead>> {
    // The rule that leads a state on; the first, at its first child, if there is none.
    pub fn lead(&self, state: usize) -> Lead
        ensures { result ≡ lead_of self.now state }
    {
        self.how(state)
            .flatten()
            .unwrap_or(Lead { rule: 0, place: 0 })
    }
}
