// What is said of the answer of a comparison, tested for any two tables.
use crate::places::{count_untouched, untouched};
use comparison::Comparison;
use kinds::Kind;
use rules::{Place, Weighing};
use std::process::Abort;
use std::test::*;
use tables::Closed;
use trees::Node;

fn has_child(node: &Node, ranks: &[usize], child: usize) -> bool {
    let rank = ranks.get(node.symbol).copied().unwrap_or(0);
    node.children.iter().take(rank).any(|entry| *entry == child)
}

// Whether entry k is a child of a later one.
fn is_used(list: &[Node], ranks: &[usize], k: usize) -> bool {
    list.iter()
        .skip(k)
        .skip(1)
        .any(|node| has_child(node, ranks, k))
}

// How many entries are children of later ones.
fn count_used(list: &[Node], ranks: &[usize]) -> usize {
    (0..list.len()).filter(|k| is_used(list, ranks, *k)).count()
}

// The code of the weight of a tree, if it weighs something.
fn weight_of<W: Kind>(weighing: Weighing<W>) -> Option<i64> {
    match weighing {
        Weighing::NoRun | Weighing::Ended { .. } => None,
        Weighing::Weighs { weight, .. } => Some(weight.code()),
    }
}

// The tree list is that of a witness, in which every entry but the last is a child of a later one.
fn check_witness<W: Kind>(
    rt: &impl Abort,
    first: &mut Closed<'_, W>,
    second: &mut Closed<'_, W>,
    ranks: &[usize],
    tree: &[Node],
    work: &mut [Place<W>],
) -> Result<(), Fail> {
    assert_eq!(rt; count_untouched(tree), 0);
    assert_eq!(rt; count_used(tree, ranks).saturating_add(1), tree.len());
    let one = weight_of(first.weigh(tree, work)?);
    let other = weight_of(second.weigh(tree, work)?);
    assert_ne!(rt; one, other);
    Ok(())
}

// Compares two tables over these ranks, with so many places in both lists, and checks what is said of the lists. Answers the number of
// entries of the witness, if there is one.
pub fn compared<W: Kind + Clone>(
    rt: &(impl Abort + AllocGlobal),
    ranks: &[usize],
    places: usize,
    first: &mut Closed<'_, W>,
    second: &mut Closed<'_, W>,
) -> Result<Option<usize>, Fail> {
    let heap = rt.alloc();
    let mut list = vec![in heap; untouched(); places]?;
    let mut work = vec![in heap; Place::blank(); places]?;
    match first.compare(second, list.as_mut_slice(), work.as_mut_slice())? {
        Comparison::Same => {
            assert_eq!(rt; count_untouched(list.as_slice()), places);
            Ok(None)
        }
        Comparison::Different { entries } => {
            assert!(rt; entries <= list.len());
            let (tree, rest) = list.as_slice().split_at(entries);
            check_witness(rt, first, second, ranks, tree, work.as_mut_slice())?;
            // the entries behind the tree list are as they were
            assert_eq!(rt; count_untouched(rest), rest.len());
            Ok(Some(entries))
        }
    }
}

// The same in both orders.
pub fn compared_both_ways<W: Kind + Clone>(
    rt: &(impl Abort + AllocGlobal),
    ranks: &[usize],
    places: usize,
    first: &mut Closed<'_, W>,
    second: &mut Closed<'_, W>,
) -> Result<[Option<usize>; 2], Fail> {
    let there = compared(rt, ranks, places, first, second)?;
    let back = compared(rt, ranks, places, second, first)?;
    Ok([there, back])
}
