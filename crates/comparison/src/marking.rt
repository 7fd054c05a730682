// Marking the entries of a work list that the tree of one of them uses.
ghost use Rattle.std.specs.Prelude.{◌≡◌, ℕ, ◌+◌, ◌<◌, true, ◌↔◌, length, slice_index, slice_index_or, slice_set};
ghost use Rattle.std.specs.List.{AllByRecursion};
ghost use Rattle.trees.specs.Lists.{blank, children_of};
ghost use Rattle.rules.specs.Shapes.{ranks_in};
ghost use Rattle.comparison.specs.Forest.{nodes};
ghost use Rattle.comparison.specs.Marking.{sign, marks, Kept, Entries, marked_at, number, Marking};

use kinds::Kind;
use rules::{Place, Shape};
use trees::Node;

fn mark_of<W: Kind>(work: &[Place<W>], entry: usize) -> Option<usize>
    requires { entry < length work.now }
    ensures { sign result ≡ slice_index (marks work.now) entry }
{
    work[entry].mark
}

pub(crate) fn is_marked<W: Kind>(work: &[Place<W>], entry: usize) -> bool
    requires { entry < length work.now }
    ensures { (result ≡ true) ↔ (0 < slice_index (marks work.now) entry) }
{
    mark_of(work, entry).is_some()
}

// The number of a marked entry.
pub(crate) fn entry_number<W: Kind>(work: &[Place<W>], entry: usize) -> usize
    requires { entry < length work.now }
    ensures { result ≡ number (marks work.now) entry }
{
    mark_of(work, entry).unwrap_or(0)
}

pub(crate) fn node_of<W: Kind>(work: &[Place<W>], entry: usize) -> Node
    requires { entry < length work.now }
    ensures { (len : ℕ) → entry < len → result ≡ slice_index_or (nodes work.now len) entry blank }
{
    work[entry].node
}

// Sets the mark of an entry.
pub(crate) fn put_mark<W: Kind>(work: &mut [Place<W>], entry: usize, mark: Option<usize>)
    requires { entry < length work.old }
    ensures marks { marks work.new ≡ slice_set (marks work.old) entry (sign mark) }
    ensures kept { Kept work.old work.new }
{
    work[entry].mark = mark;
}

// Takes the marks off the entries before `top`.
fn clear<W: Kind>(work: &mut [Place<W>], top: usize)
    requires { top < length work.old }
    ensures none { (i : ℕ) → i < top → slice_index (marks work.new) i ≡ 0 }
    ensures kept { Kept work.old work.new }
{
    for place in &mut work[..top] {
        place.mark = None;
    }
}

// Marks the children of a node.
fn mark_children<W: Kind>(shape: &Shape, work: &mut [Place<W>], node: &Node)
    requires { AllByRecursion (λ c. c < length work.old) (children_of (ranks_in shape.now) node.now) }
    ensures marks { marks work.new ≡ marked_at (marks work.old) (children_of (ranks_in shape.now) node.now) }
    ensures kept { Kept work.old work.new }
{
    for child in &node.children[..shape.rank(node.symbol)] {
        put_mark(work, *child, Some(0));
    }
}

// Marks the children of an entry, if it is marked itself.
fn mark_below<W: Kind>(shape: &Shape, work: &mut [Place<W>], top: usize, entry: usize)
    requires within { entry < top + 1 }
    requires entries { Entries (ranks_in shape.now) work.old top }
    requires marking { Marking (ranks_in shape.now) (nodes work.old (top + 1)) top (marks work.old) (entry + 1) }
    ensures marking { Marking (ranks_in shape.now) (nodes work.new (top + 1)) top (marks work.new) entry }
    ensures kept { Kept work.old work.new }
{
    if is_marked(work, entry) {
        let node = node_of(work, entry);
        mark_children(shape, work, &node);
    }
}

// Marks the entries that the tree of `top` uses, and takes the marks off the others before it.
pub(crate) fn mark_used<W: Kind>(shape: &Shape, work: &mut [Place<W>], top: usize)
    requires few { top < 8192 }
    requires entries { Entries (ranks_in shape.now) work.old top }
    ensures marking { Marking (ranks_in shape.now) (nodes work.new (top + 1)) top (marks work.new) 0 }
    ensures kept { Kept work.old work.new }
{
    clear(work, top);
    put_mark(work, top, Some(0));
    for e in (0..top + 1).rev() {
        mark_below(shape, work, top, e);
    }
}
