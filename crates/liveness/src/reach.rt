// The states that trees have, each with the place of the rule that reached it first, all of whose children were found before it.
ghost use Rattle.std.specs.Prelude.{◌≡◌};
ghost use Rattle.liveness.specs.Reaching.{rule_of};

use crate::found::Found;

pub type Reach = Found<usize>;

impl Found<usize> {
    // The place of the rule that reached a state first, and 0 if none did.
    pub fn rule(&self, state: usize) -> usize
        ensures { result ≡ rule_of self.now state }
    {
        self.how(state).unwrap_or(0)
    }
}
