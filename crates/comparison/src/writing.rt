// Writing the tree of one entry of a work list, with no entry that it does not use.
ghost use Rattle.std.specs.Prelude.{◌≡◌, ◌+◌, ◌<◌, ◌≤◌, length, drop, slice_index, slice_set};
ghost use Rattle.std.specs.List.{AllByRecursion};
ghost use Rattle.trees.specs.Lists.{children_of};
ghost use Rattle.rules.specs.Shapes.{ranks_in};
ghost use Rattle.comparison.specs.Forest.{nodes};
ghost use Rattle.comparison.specs.Marking.{marks, Kept, Entries, Marking, Renumbered, Numbering};
ghost use Rattle.comparison.specs.Writing.{Written};

use crate::marking::{entry_number, is_marked, mark_used, node_of, put_mark};
use kinds::Kind;
use rules::{Place, Shape};
use trees::Node;

// The node with each child by its number.
fn renumbered<W: Kind>(shape: &Shape, work: &[Place<W>], node: &Node) -> Node
    requires { AllByRecursion (λ c. 0 < slice_index (marks work.now) c) (children_of (ranks_in shape.now) node.now) }
    ensures { Renumbered (ranks_in shape.now) (marks work.now) node.now result }
{
    let rank = shape.rank(node.symbol);
    let mut children = [0; 4];
    for (k, child) in node.children[..rank].iter().enumerate() {
        children[k] = entry_number(work, *child);
    }
    Node {
        symbol: node.symbol,
        children,
    }
}

// Writes a node to a place of the list.
fn put_node(list: &mut [Node], place: usize, node: Node)
    requires { place < length list.old }
    ensures { list.new ≡ slice_set list.old place node }
{
    list[place] = node;
}

// Writes an entry behind the first `count` of the list, if it is marked, and answers how many are written then.
fn write_entry<W: Kind>(
    shape: &Shape,
    work: &mut [Place<W>],
    top: usize,
    entry: usize,
    list: &mut [Node],
    count: usize,
) -> usize
    requires within { entry < top + 1 }
    requires room { top < length list.old }
    requires entries { Entries (ranks_in shape.now) work.old top }
    requires numbering { Numbering (ranks_in shape.now) (nodes work.old (top + 1)) top (marks work.old) list.old entry count }
    ensures numbering { Numbering (ranks_in shape.now) (nodes work.new (top + 1)) top (marks work.new) list.new (entry + 1) result }
    ensures kept { Kept work.old work.new }
    ensures more { count ≤ result }
    ensures beyond { drop result list.new ≡ drop result list.old }
{
    if !is_marked(work, entry) {
        return count;
    }
    let node = node_of(work, entry);
    put_node(list, count, renumbered(shape, work, &node));
    put_mark(work, entry, Some(count));
    count + 1
}

// Writes the marked entries up to `top`, and answers how many they are.
fn write_marked<W: Kind>(
    shape: &Shape,
    work: &mut [Place<W>],
    top: usize,
    list: &mut [Node],
) -> usize
    requires few { top < 8192 }
    requires room { top < length list.old }
    requires entries { Entries (ranks_in shape.now) work.old top }
    requires marking { Marking (ranks_in shape.now) (nodes work.old (top + 1)) top (marks work.old) 0 }
    ensures numbering { Numbering (ranks_in shape.now) (nodes work.new (top + 1)) top (marks work.new) list.new (top + 1) result }
    ensures kept { Kept work.old work.new }
    ensures beyond { drop result list.new ≡ drop result list.old }
{
    let mut count = 0;
    for e in 0..top + 1 {
        count = write_entry(shape, work, top, e, list, count);
    }
    count
}

// Writes the tree of the entry `top` to the front of the list, and answers how many entries it has there.
// Of the work list only marks change.
pub fn write_tree<W: Kind>(
    shape: &Shape,
    work: &mut [Place<W>],
    top: usize,
    list: &mut [Node],
) -> usize
    requires few { top < 8192 }
    requires room { top < length list.old }
    requires entries { Entries (ranks_in shape.now) work.old top }
    ensures written { Written (ranks_in shape.now) work.old top list.old list.new result }
    ensures kept { Kept work.old work.new }
{
    mark_used(shape, work, top);
    write_marked(shape, work, top, list)
}
