// Adding a rule to the rules of a memory.
ghost use Rattle.std.specs.Prelude.{◌≡◌, ◌+◌, ◌<◌, ◌≤◌, min, ◌&&◌, length, take, nat_le, nat_lt, slice_set};
ghost use Rattle.std.specs.List.{AllByRecursion};
ghost use Rattle.automata.specs.Merging.{all_in};
ghost use Rattle.trees.specs.Refusals.{first_met, checks, Answers};
ghost use Rattle.rules.specs.Books.{add_checks, added, holding};
ghost use Rattle.rules.specs.Shapes.{automaton_of};

use crate::left_side::LeftSide;
use crate::lookup::rule_for;
use crate::rule::Rule;
use crate::shape::Shape;
use crate::table::Table;
use kinds::Kind;
use trees::Refusal;

// Whether all these states are below a number.
fn are_below(states: usize, list: &[usize]) -> bool
    ensures { result ≡ all_in (λ q. nat_lt q states) list.now }
{
    list.iter().all(|q| *q < states)
}

// Whether no place is left for one more rule.
fn is_full<W: Kind>(table: &Table<W>, places: usize) -> bool
    ensures { result ≡ nat_le (min places 1024) (length (automaton_of W.Kind.stands table.now).rules) }
{
    table.rules.len() >= places.min(1024)
}

// The refusal that a rule meets at a table with this many places, if it meets one.
fn add_refusal<W: Kind>(
    table: &Table<W>,
    places: usize,
    symbol: usize,
    children: &[usize],
    target: usize,
) -> Option<Refusal>
    ensures { result ≡ first_met (add_checks (record { places = places; content = automaton_of W.Kind.stands table.now }) symbol children.now target) }
{
    let shape = table.shape;
    if symbol >= shape.alphabet().len() {
        return Some(Refusal::Symbol);
    }
    if children.len() != shape.rank(symbol) {
        return Some(Refusal::Children);
    }
    let states = shape.states();
    if target >= states || !are_below(states, children) {
        return Some(Refusal::State);
    }
    if rule_for(table.rules, symbol, children).is_some() {
        return Some(Refusal::Taken);
    }
    if is_full(table, places) {
        return Some(Refusal::Full);
    }
    None
}

// The refusal that a rule meets at the first `count` rules of the memory, if it meets one.
fn memory_refusal<W: Kind>(
    shape: &Shape,
    memory: &[Rule<W>],
    count: usize,
    symbol: usize,
    children: &[usize],
    target: usize,
) -> Option<Refusal>
    ensures { result ≡ first_met (add_checks (holding W.Kind.stands shape.now memory.now count) symbol children.now target) }
{
    let table = Table::of_first(shape, memory, count);
    add_refusal(&table, memory.len(), symbol, children, target)
}

// The left side with these states in its first places, and 0 in the others.
fn left_side(symbol: usize, children: &[usize]) -> LeftSide
    requires { (symbol < 256) × ((length children.now ≤ 4) × (AllByRecursion (λ q. q < 256) children.now)) }
    ensures symbol { result.symbol ≡ symbol }
    ensures children { take (length children.now) result.children ≡ children.now }
{
    let mut places = [0; 4];
    for (k, child) in children.iter().enumerate() {
        places[k] = *child as u8;
    }
    LeftSide {
        symbol: symbol as u8,
        children: places,
    }
}

// Adds a rule to the first `count` rules of the memory, and answers how many there are then.
pub fn append<W: Kind>(
    shape: &Shape,
    memory: &mut [Rule<W>],
    count: usize,
    symbol: usize,
    children: &[usize],
    target: usize,
    weight: W,
) -> Result<usize, Refusal>
    ensures { Answers (checks (add_checks (holding W.Kind.stands shape.now memory.old count) symbol children.now target)) (λ n. (n ≡ count + 1) × (holding W.Kind.stands shape.now memory.new n ≡ added (holding W.Kind.stands shape.now memory.old count) (record { symbol = symbol; children = children.now; target = target; weight = W.Kind.stands weight }))) (memory.new ≡ memory.old) result }
{
    if let Some(refusal) = memory_refusal(shape, memory, count, symbol, children, target) {
        return Err(refusal);
    }
    let left = left_side(symbol, children);
    memory[count] = Rule {
        left,
        target: target as u8,
        weight,
    };
    Ok(count + 1)
}
