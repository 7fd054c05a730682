// Small tables drawn from a number, and variations of them.
use crate::lines::{measured, with_table};
use crate::numbered;
use kinds::Kind;
use std::process::Abort;
use std::test::*;
use tables::{Closed, Draft};

// The ranks of every drawn table.
pub const RANKS: [usize; 4] = [0, 0, 1, 2];

// The codes of four weights, for each kind. The costs are a quarter of the range apart.
pub const MARKS: [i64; 4] = [1; 4];

pub const RESIDUES: [i64; 4] = [1, 16, 256, 241];

pub const COSTS: [i64; 4] = [0, 1073741824, -2147483648, -1073741824];

// How many times a drawn table is offered a rule.
const ATTEMPTS: usize = 14;

// A linear congruential generator.
#[derive(Clone, Copy)]
pub struct Dice {
    state: u64,
}

impl Dice {
    pub fn new(seed: usize) -> Dice {
        Dice {
            state: (seed as u64).wrapping_mul(6364136223846793005),
        }
    }

    // A number below the bound, or 0 if the bound is 0.
    pub fn below(&mut self, bound: usize) -> usize {
        self.state = self
            .state
            .wrapping_mul(6364136223846793005)
            .wrapping_add(1442695040888963407);
        let high = (self.state >> 33) as usize;
        if bound == 0 { 0 } else { high % bound }
    }
}

// How a table differs from the one that is drawn. Its states are numbered in a circle, from `turn` on.
#[derive(Clone, Copy, Default)]
pub struct Variation {
    pub turn: usize,
    // a state that has a copy, with the same rules and acceptance
    pub copied: Option<usize>,
    // the attempt at a rule that is left out, whose weight is another, or whose weight is another at copies only
    pub omitted: Option<usize>,
    pub changed: Option<usize>,
    pub skewed: Option<usize>,
    // a state whose acceptance is the opposite
    pub flipped: Option<usize>,
}

// An attempt at a rule, with the place of its weight in the list of weights.
#[derive(Clone, Copy)]
struct Attempt {
    number: usize,
    symbol: usize,
    children: [usize; 2],
    target: usize,
    weight: usize,
}

// The first attempts are at the leaves, the others at the symbols above them.
fn draw_attempt(dice: &mut Dice, number: usize, states: usize) -> Attempt {
    let symbol = if dice.below(6) < 2 { 2 } else { 3 };
    let children = [dice.below(states), dice.below(states)];
    let target = dice.below(states);
    let weight = dice.below(8);
    Attempt {
        number,
        symbol: if number < 2 { number } else { symbol },
        children,
        target,
        weight: if weight < 4 { weight } else { 0 },
    }
}

// A table to be drawn: its seed, how many states it has without a copy, the codes of its weights, and how it differs from the one that the
// seed gives.
#[derive(Clone, Copy)]
pub struct Drawing {
    seed: usize,
    states: usize,
    codes: [i64; 4],
    variation: Variation,
}

impl Drawing {
    pub fn new(seed: usize, codes: [i64; 4], variation: Variation) -> Drawing {
        Drawing {
            seed,
            states: Dice::new(seed).below(4).saturating_add(1),
            codes,
            variation,
        }
    }

    // How many states there are with the copy, which is the last.
    pub fn states(&self) -> usize {
        let copies = usize::from(self.variation.copied.is_some());
        self.states.saturating_add(copies)
    }

    // The number of a state.
    fn name(&self, state: usize) -> usize {
        let total = self.states();
        if total == 0 {
            0
        } else {
            state.wrapping_add(self.variation.turn) % total
        }
    }

    // The state, or its copy if it has one and that is asked for.
    fn copy_of(&self, state: usize, asked: bool) -> usize {
        if asked && self.variation.copied == Some(state) {
            self.name(self.states)
        } else {
            self.name(state)
        }
    }

    fn accept<W: Kind>(&self, draft: &mut Draft<'_, W>, dice: &mut Dice) -> Result<(), Fail> {
        for q in 0..self.states {
            let drawn = dice.below(3) == 0 || q.saturating_add(1) == self.states;
            if drawn != (self.variation.flipped == Some(q)) {
                draft.accept(self.copy_of(q, false))?;
                draft.accept(self.copy_of(q, true))?;
            }
        }
        Ok(())
    }

    // The weight of an attempt, at children that are copies or not.
    fn weight<W: Kind>(&self, attempt: &Attempt, copies: bool) -> Result<W, Fail> {
        let number = Some(attempt.number);
        let other = self.variation.changed == number || copies && self.variation.skewed == number;
        let place = if other {
            attempt.weight.wrapping_add(1)
        } else {
            attempt.weight
        };
        Ok(W::read(self.codes[place % 4])?)
    }

    // Offers the rule of an attempt, at the states and at their copies; a left side that is taken keeps its rule.
    fn offer<W: Kind>(
        &self,
        rt: &impl Abort,
        draft: &mut Draft<'_, W>,
        attempt: &Attempt,
    ) -> Result<(), Fail> {
        let [left, right] = attempt.children;
        for (k, on_left, on_right) in [
            (0, false, false),
            (1, true, false),
            (0, false, true),
            (1, true, true),
        ] {
            let children = [self.copy_of(left, on_left), self.copy_of(right, on_right)];
            let children = match attempt.symbol {
                0 | 1 => &[],
                2 => &children[..1],
                _ => &children,
            };
            let odd = attempt.number.wrapping_add(k) % 2 == 1;
            let target = self.copy_of(attempt.target, odd);
            let weight = self.weight::<W>(attempt, on_left || on_right)?;
            let answer = numbered(draft.add(attempt.symbol, children, target, weight));
            assert!(rt; matches!(answer, Ok(()) | Err(6)));
        }
        Ok(())
    }

    // Enters the accepting states and the rules.
    fn fill<W: Kind>(&self, rt: &impl Abort, draft: &mut Draft<'_, W>) -> Result<(), Fail> {
        let mut dice = Dice::new(self.seed);
        dice.below(4);
        self.accept(draft, &mut dice)?;
        for number in 0..ATTEMPTS {
            let attempt = draw_attempt(&mut dice, number, self.states);
            if self.variation.omitted != Some(number) {
                self.offer(rt, draft, &attempt)?;
            }
        }
        Ok(())
    }

    // Draws the table, and hands it on.
    pub fn with_table<W, T, F>(&self, rt: &(impl Abort + AllocGlobal), then: F) -> Result<T, Fail>
    where
        W: Kind + Clone,
        F: FnOnce(&mut Closed<'_, W>) -> Result<T, Fail>,
        requires { F.IsAlwaysCallable then }
    {
        let measure = measured(&RANKS, self.states())?;
        with_table(rt.alloc(), &measure, 56, |draft| self.fill(rt, draft), then)
    }

    // Pushes at every state that is not accepting.
    pub fn push<W: Kind>(&self, rt: &impl Abort, table: &mut Closed<'_, W>) -> Result<(), Fail> {
        for q in 0..self.states() {
            let factor = W::read(self.codes[self.seed.wrapping_add(q) % 4])?;
            assert!(rt; matches!(numbered(table.push(q, factor)), Ok(()) | Err(9)));
        }
        Ok(())
    }
}
