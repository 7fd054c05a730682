// Tables with many equivalent states. Two of one form weigh every tree alike, whatever their salts, unless one is changed.
use crate::fault::Fault;
use crate::form::{Form, State};
use kinds::{Kind, Residue};
use rules::Measure;
use std::alloc::Global;
use tables::Draft;
use trees::Refusal;

// What a generated table is made from.
#[derive(Clone, Copy)]
pub struct Plan {
    pub form: Form,
    // which copies rules lead to, and how their weights differ
    pub salt: usize,
    // whether the last group weighs something else
    pub changed: bool,
}

// A number that looks random, from another.
fn mixed(number: usize) -> usize {
    let first = number.wrapping_add(1).wrapping_mul(2654435761);
    let second = (first ^ (first >> 13)).wrapping_mul(0x9E3779B97F4A7C15);
    second >> 29
}

fn residue(number: usize) -> Residue {
    Residue::read((number % 256) as i64 + 1).unwrap()
}

pub fn measured(heap: Global, form: &Form) -> Result<Measure, Fault> {
    let mut ranks = vec![in heap; 0; form.leaves]?;
    ranks.resize(form.symbols(), form.rank as usize)?;
    let mut measure = Measure::fresh();
    measure.measure(ranks.as_slice(), form.states())?;
    Ok(measure)
}

impl Plan {
    // What a state weighs more than the first copy of its class; the accepting states have no such difference.
    fn difference(&self, state: State) -> Residue {
        if state.class == 0 {
            return Residue::one();
        }
        let number = state.class.wrapping_mul(64).wrapping_add(state.copy);
        residue(mixed(self.salt.wrapping_add(number)))
    }

    fn add_leaf(&self, draft: &mut Draft<'_, Residue>, leaf: usize) -> Result<(), Refusal> {
        let form = self.form;
        let state = State {
            class: mixed(leaf) % form.classes,
            copy: mixed(leaf.wrapping_add(self.salt)) % form.copies,
        };
        let weight = residue(mixed(leaf.wrapping_add(1000))).times(self.difference(state));
        draft.add(leaf, &[], form.number_of(state), weight)
    }

    // Every second group leads to the accepting class.
    fn target_class(&self, group: usize) -> usize {
        if group % 2 == 0 {
            return 0;
        }
        mixed(group.wrapping_add(5000)) % self.form.classes
    }

    // What a group weighs over the first copies of its classes.
    fn base(&self, group: usize) -> Residue {
        let last = group.wrapping_add(1) == self.form.groups;
        residue(mixed(group.wrapping_add(if self.changed && last { 9999 } else { 9000 })))
    }

    // Adds the rule of a group with this number.
    fn add_rule(
        &self,
        draft: &mut Draft<'_, Residue>,
        group: usize,
        rule: usize,
    ) -> Result<(), Refusal> {
        let form = self.form;
        let rank = form.rank.min(4) as usize;
        let places = form.children(group, rule);
        let numbers = places.map(|child| form.number_of(child));
        let children = &places[..rank];
        let turn = children
            .iter()
            .fold(self.salt, |sum, child| sum.wrapping_add(child.copy));
        let target = State {
            class: self.target_class(group),
            copy: turn % form.copies,
        };
        let differences = children.iter().fold(
            Residue::one(),
            |product, child| product.times(self.difference(*child)),
        );
        let weight = self
            .base(group)
            .times(differences.inverse())
            .times(self.difference(target));
        draft.add(
            form.symbol_of(group),
            &numbers[..rank],
            form.number_of(target),
            weight,
        )
    }

    // Fills a draft with the rules. The class 0 is accepting.
    pub fn fill(&self, draft: &mut Draft<'_, Residue>) -> Result<(), Refusal> {
        let form = self.form;
        for copy in 0..form.copies {
            draft.accept(form.number_of(State { class: 0, copy }))?;
        }
        for leaf in 0..form.leaves {
            self.add_leaf(draft, leaf)?;
        }
        for group in 0..form.groups {
            for rule in 0..form.copies_of_group() {
                self.add_rule(draft, group, rule)?;
            }
        }
        Ok(())
    }
}
