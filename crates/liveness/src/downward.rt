// Finding the live states, from the accepting ones down.
ghost use Rattle.std.specs.Prelude.{◌≡◌, ◌<◌, ◌≤◌, true, false, length, Some, slice_get, slice_index};
ghost use Rattle.rules.specs.Shapes.{ranks_in, transition, automaton_of};
ghost use Rattle.liveness.specs.Listings.{flags_of, Listed};
ghost use Rattle.liveness.specs.Reaching.{Reached};
ghost use Rattle.liveness.specs.Living.{Lively, Noted, Begun, Living, Followed, Rests};

use crate::found::Found;
use crate::life::{Lead, Life};
use crate::reach::Reach;
use kinds::Kind;
use rules::{Rule, Shape, Table};

// Adds a state if it is one and new.
fn note(states: usize, state: usize, lead: Option<Lead>, life: &mut Life)
    requires { (states ≤ 48) × (Listed states (flags_of life.old) life.old.order life.old.count) }
    ensures { Noted states state lead life.old life.new }
{
    if state < states && !life.has(state) {
        life.add(state, lead);
    }
}

// Adds the state in a child place of the rule at a place, if it is one and new.
fn note_child(states: usize, children: &[u8], at: usize, place: usize, life: &mut Life)
    requires { (place < length children.now) × (states ≤ 48) × (Listed states (flags_of life.old) life.old.order life.old.count) }
    ensures { Noted states (slice_index children.now place) (Some (record { rule = at; place = place })) life.old life.new }
{
    let lead = Lead { rule: at, place };
    note(states, usize::from(children[place]), Some(lead), life);
}

// The accepting states that are reached.
fn begin(shape: &Shape, reach: &Reach) -> Life
    ensures { Begun shape.now reach.now result }
{
    let mut life = Found::none();
    let states = shape.states();
    for q in 0..states {
        if shape.is_accepting(q) && reach.has(q) {
            note(states, q, None, &mut life);
        }
    }
    life
}

// Adds the children of the rule at a place if its target is live and all of them are reached.
fn follow<W: Kind>(table: &Table<W>, reach: &Reach, at: usize, rule: &Rule<W>, life: &mut Life)
    requires { (slice_get (automaton_of W.Kind.stands table.now).rules at ≡ Some (transition W.Kind.stands (ranks_in table.now.shape.now) rule.now)) × (Living (automaton_of W.Kind.stands table.now) reach.now life.old) }
    ensures { Followed (automaton_of W.Kind.stands table.now) reach.now at life.old life.new }
{
    if !life.has(usize::from(rule.target)) {
        return;
    }
    let children = table.shape.children(&rule.left);
    if !reach.has_all(children) {
        return;
    }
    for k in 0..children.len() {
        note_child(table.shape.states(), children, at, k, life);
    }
}

// Follows every rule once, and says whether a state was added.
fn pass_down<W: Kind>(table: &Table<W>, reach: &Reach, life: &mut Life) -> bool
    requires { Living (automaton_of W.Kind.stands table.now) reach.now life.old }
    ensures living { Living (automaton_of W.Kind.stands table.now) reach.now life.new }
    ensures more { result ≡ true → life.old.count < life.new.count }
    ensures rest { result ≡ false → Rests (automaton_of W.Kind.stands table.now) reach.now life.new }
{
    let before = life.count;
    for (i, rule) in table.rules.iter().enumerate() {
        follow(table, reach, i, rule, life);
    }
    before < life.count
}

// The live states, given those that are reached.
pub fn find_live<W: Kind>(table: &Table<W>, reach: &Reach) -> Life
    ensures { Reached (automaton_of W.Kind.stands table.now) reach.now → Lively (automaton_of W.Kind.stands table.now) reach.now result }
{
    let mut life = begin(table.shape, reach);
    while pass_down(table, reach, &mut life) {}
    life
}
