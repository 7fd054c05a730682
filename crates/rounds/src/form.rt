// The form of a generated table: classes of states that are equivalent by construction, with some copies each.
ghost use Rattle.std.specs.Prelude.{◌<◌};

#[derive(Clone, Copy)]
pub struct Form {
    pub classes: usize,
    pub copies: usize,
    // symbols of rank 0
    pub leaves: usize,
    // the rank of the other symbols, and how many left sides over classes they have together
    pub rank: u32,
    pub groups: usize,
    ghost some_classes: { 0 < classes },
    ghost some_copies: { 0 < copies },
}

// A state of a generated table: a copy of a class.
#[derive(Clone, Copy)]
pub struct State {
    pub class: usize,
    pub copy: usize,
}

impl Form {
    pub fn states(&self) -> usize {
        self.classes.saturating_mul(self.copies)
    }

    // How many left sides over classes one symbol has.
    fn tuples(&self) -> usize
        ensures { 0 < result }
    {
        self.classes.saturating_pow(self.rank)
    }

    // How many rules stand for one left side over classes.
    pub fn copies_of_group(&self) -> usize {
        self.copies.saturating_pow(self.rank)
    }

    pub fn symbols(&self) -> usize {
        self.leaves
            .saturating_add(self.groups.div_ceil(self.tuples()))
    }

    pub fn rules(&self) -> usize {
        self.leaves
            .saturating_add(self.groups.saturating_mul(self.copies_of_group()))
    }

    pub fn symbol_of(&self, group: usize) -> usize {
        self.leaves.saturating_add(group / self.tuples())
    }

    // The children of a rule of a group, the rule with this number among those of the group, in the first places, as many as the rank.
    pub fn children(&self, group: usize, rule: usize) -> [State; 4] {
        let mut classes = group.wrapping_mul(7919) % self.tuples();
        let mut copies = rule;
        let mut children = [State { class: 0, copy: 0 }; 4];
        for child in &mut children {
            *child = State {
                class: classes % self.classes,
                copy: copies % self.copies,
            };
            classes /= self.classes;
            copies /= self.copies;
        }
        children
    }

    pub fn number_of(&self, state: State) -> usize {
        state
            .class
            .saturating_mul(self.copies)
            .saturating_add(state.copy)
    }
}
