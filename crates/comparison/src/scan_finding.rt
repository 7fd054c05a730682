// A node, and what it adds.
use crate::scan_verdict::Verdict;
use trees::Node;

#[derive(Clone, Copy)]
pub struct Finding {
    pub node: Node,
    pub verdict: Verdict,
}
