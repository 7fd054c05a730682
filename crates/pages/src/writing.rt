// Writing the lines of an answer.
ghost use Rattle.std.specs.Prelude.{◌≡◌, ◌≤◌, [], ◌∷◌, ◌++◌, length, IfOk, OnOk};
ghost use Rattle.trees.specs.Alphabets.{ranks_of};
ghost use Rattle.trees.specs.Lists.{children_of};
ghost use Rattle.layout.specs.Answers.{number_line, weight_line};
ghost use Rattle.pages.specs.Answering.{verdict_line, node_lines};

use layout::{write_line, write_weight};
use std::alloc::{AllocError, Global};
use trees::{Alphabet, Node};

// The numbers of an entry: its own, its symbol, and its four places.
fn numbers_of(number: usize, node: &Node) -> [usize; 6]
    ensures { result ≡ number ∷ node.now.symbol ∷ node.now.children }
{
    let [a, b, c, d] = node.children;
    [number, node.symbol, a, b, c, d]
}

// Writes the line of an entry: its number, its symbol and its children.
fn write_node(
    out: &mut Vec<u8>,
    alphabet: &Alphabet,
    number: usize,
    node: &Node,
) -> Result<(), AllocError>
    ensures { OnOk result (out.new.items ≡ out.old.items ++ number_line 78 (number ∷ node.now.symbol ∷ children_of (ranks_of alphabet.now) node.now)) }
{
    let numbers = numbers_of(number, node);
    write_line(
        out,
        b'N',
        &numbers[0..2 + alphabet.rank_or_zero(node.symbol)],
    )
}

// Writes a line for each entry of a tree list.
fn write_nodes(out: &mut Vec<u8>, alphabet: &Alphabet, list: &[Node]) -> Result<(), AllocError>
    ensures { OnOk result (out.new.items ≡ out.old.items ++ node_lines (ranks_of alphabet.now) 0 list.now) }
{
    for (i, node) in list.iter().enumerate() {
        write_node(out, alphabet, i, node)?;
    }
    Ok(())
}

// The answer to two tables that weigh every tree alike, by their numbers of states.
pub fn write_same(heap: Global, first: usize, second: usize) -> Result<Vec<u8>, AllocError>
    ensures { IfOk result (λ v. v.items ≡ verdict_line 0 first second 0) }
{
    let mut out = Vec::new(heap);
    write_line(&mut out, b'V', &[0, first, second, 0])?;
    Ok(out)
}

// What is told of a table: its least number of states, and the code of what a tree weighs in it.
#[derive(Clone, Copy)]
pub struct Told {
    pub states: usize,
    pub code: Option<i64>,
}

// The answer to two tables that a tree list tells apart: their numbers of states, the entries, and the codes of the tree's weights.
pub fn write_different(
    heap: Global,
    alphabet: &Alphabet,
    list: &[Node],
    first: Told,
    second: Told,
) -> Result<Vec<u8>, AllocError>
    ensures { IfOk result (λ v. v.items ≡ verdict_line 1 first.states second.states (length list.now) ++ node_lines (ranks_of alphabet.now) 0 list.now ++ weight_line 1 first.code ++ weight_line 2 second.code) }
{
    let mut out = Vec::new(heap);
    write_line(
        &mut out,
        b'V',
        &[1, first.states, second.states, list.len()],
    )?;
    write_nodes(&mut out, alphabet, list)?;
    write_weight(&mut out, 1, first.code)?;
    write_weight(&mut out, 2, second.code)?;
    Ok(out)
}
