// The test for a tree list.
ghost use Rattle.std.specs.Prelude.{◌≡◌, true, ◌↔◌};
ghost use Rattle.trees.specs.Alphabets.{ranks_of};
ghost use Rattle.trees.specs.Lists.{Good, Tested};

use crate::alphabet::Alphabet;
use crate::node::Node;
use crate::refusal::Refusal;

// Whether a node may stand as the entry with the number `at`.
fn is_good(alphabet: &Alphabet, at: usize, node: &Node) -> bool
    ensures { (result ≡ true) ↔ Good (ranks_of alphabet.now) at node.now }
{
    let Some(rank) = alphabet.rank(node.symbol) else {
        return false;
    };
    let (children, padding) = node.children.split_at(rank);
    children.iter().all(|child| *child < at) && padding.iter().all(|child| *child == 0)
}

// Refuses what is not a tree list over the alphabet, by the first bad entry.
pub fn check_list(alphabet: &Alphabet, list: &[Node]) -> Result<(), Refusal>
    ensures { Tested (ranks_of alphabet.now) list.now result }
{
    if list.is_empty() || list.len() > 8192 {
        return Err(Refusal::TreeList(0));
    }
    for (i, node) in list.iter().enumerate() {
        if !is_good(alphabet, i, node) {
            return Err(Refusal::TreeList(i));
        }
    }
    Ok(())
}
