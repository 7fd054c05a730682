// Choosing a factor for each live state: for every class of unmarked live states one context that leads them to acceptance, and for each state
// the weight that it gives there, up to a weight that the class shares.
ghost use Rattle.std.specs.Prelude.{◌≡◌, ℕ, ◌<◌, ◌≤◌, true, false, not, ◌&&◌, length, Some, slice_index, slice_set};
ghost use Rattle.std.specs.List.{ContainsAt};
ghost use Rattle.automata.specs.Automata.{Transition, Sound};
ghost use Rattle.automata.specs.Marking.{DecidesLive, Chosen};
ghost use Rattle.automata.specs.Merging.{keeps};
ghost use Rattle.automata.specs.Trees.{rank};
ghost use Rattle.pairs.specs.Cells.{cell_at};
ghost use Rattle.rules.specs.declared.side.Side.TheVariants.{First};
ghost use Rattle.rules.specs.Running.{place_run};
ghost use Rattle.rules.specs.Shapes.{ranks_in, states_in, accepts_in, children_in, automaton_of, transition};
ghost use Rattle.reduction.specs.Choosing.{Readiness, Choice, LeadsBack, IsRule, unset, Grown, Given, Accepting, Gets};
ghost use Rattle.reduction.specs.Classes.{weight_or_one, factor_at};
ghost use Rattle.reduction.specs.Marking.{live_in, set_in, ToldFirst};

use crate::chooser::Chooser;
use crate::factors::factor;
use crate::live_table::LiveTable;
use kinds::Kind;
use liveness::is_set;
use pairs::PairTable;
use rules::{Place, Rule, Run, rule_for};

// A place that holds the factor of a state.
fn holding<W: Kind>(state: usize, weight: W) -> Place<W>
    ensures { weight_or_one W.Kind.weights (place_run W.Kind.stands First (Some result)) ≡ W.Kind.stands weight }
{
    Place {
        first: Some(Run { state, weight }),
        ..Place::blank()
    }
}

// Gives a state its factor, unless it has one or there is no place for it.
fn give<W: Kind>(state: usize, weight: W, chosen: &mut [bool; 48], work: &mut [Place<W>])
    ensures grown { Grown chosen.old chosen.new }
    ensures given { state < 48 → state < length work.old → set_in chosen.old state ≡ false → Given state (W.Kind.stands weight) (set_in chosen.old) (factor_at W.Kind.stands W.Kind.weights work.old) (set_in chosen.new) (factor_at W.Kind.stands W.Kind.weights work.new) }
{
    if state < 48 && state < work.len() && !chosen[state] {
        chosen[state] = true;
        work[state] = holding(state, weight);
    }
}

// The weight of a rule times the factor of its target.
fn led_weight<W: Kind>(rule: &Rule<W>, work: &[Place<W>]) -> W
    ensures { W.Kind.stands result ≡ W.Kind.weights.times (W.Kind.stands rule.now.weight) (factor_at W.Kind.stands W.Kind.weights work.now rule.now.target) }
{
    rule.weight.times(factor(work, usize::from(rule.target)))
}

// How many flags are not set.
fn missing(flags: &[bool; 48]) -> usize
    ensures { result ≡ unset flags.now }
{
    flags.iter().filter(|flag| !**flag).count()
}

impl<'a, W: Kind> LiveTable<'a, W> {
    // Whether a state is live and accepting.
    fn is_final(&self, state: usize) -> bool
        ensures { result ≡ (live_in self.now.life.now state && accepts_in self.now.table.shape.now state) }
    {
        self.is_live(state) && self.table.shape.is_accepting(state)
    }

    // Gives the live accepting states the factor one.
    fn choose_accepting(&self, work: &mut [Place<W>]) -> [bool; 48]
        ensures { states_in self.now.table.shape.now ≤ length work.old → Accepting W.Kind.weights (accepts_in self.now.table.shape.now) (live_in self.now.life.now) (states_in self.now.table.shape.now) (set_in result) (factor_at W.Kind.stands W.Kind.weights work.new) }
    {
        let mut chosen = [false; 48];
        for q in 0..self.table.shape.states() {
            if self.is_final(q) {
                give(q, W::one(), &mut chosen, work);
            }
        }
        chosen
    }
}

impl<'a, W: Kind> Chooser<'a, W> {
    // Gives a state the factor that the rule leads to with the state in this child place.
    fn choose_state(
        &self,
        rule: &Rule<W>,
        place: usize,
        state: usize,
        chosen: &mut [bool; 48],
        work: &mut [Place<W>],
    )
        requires { place < rank (ranks_in self.now.live.now.table.shape.now) rule.now.left.symbol }
        ensures grown { Grown chosen.old chosen.new }
        ensures gets { state < 48 → state < length work.old → Gets W.Kind.weights (automaton_of W.Kind.stands self.now.live.now.table) rule.now.left.symbol (children_in self.now.live.now.table.shape.now rule.now.left) place state (set_in chosen.old) (factor_at W.Kind.stands W.Kind.weights work.old) (set_in chosen.new) (factor_at W.Kind.stands W.Kind.weights work.new) }
    {
        let table = self.live.table;
        let symbol = usize::from(rule.left.symbol);
        let rank = table.shape.rank(symbol);
        let mut children = rule.left.states();
        children[place] = state;
        if let Some(other) = rule_for(table.rules, symbol, &children[..rank]) {
            give(state, led_weight(&other, work), chosen, work);
        }
    }

    // Whether a state is live and not marked with a child.
    fn is_alike(&self, child: usize, state: usize) -> bool
        ensures { result ≡ (live_in self.now.live.now.life.now state && not (cell_at self.now.marks.now child state)) }
    {
        self.live.is_live(state) && !self.marks.get(child, state)
    }

    // Gives each live state that is not marked with the one in this child place the factor that the rule leads to.
    fn choose_class(
        &self,
        rule: &Rule<W>,
        place: usize,
        chosen: &mut [bool; 48],
        work: &mut [Place<W>],
    )
        requires { place < rank (ranks_in self.now.live.now.table.shape.now) rule.now.left.symbol }
        ensures grown { Grown chosen.old chosen.new }
        ensures choice { Readiness W.Kind.stands W.Kind.weights self.now work.old → Choice W.Kind.stands W.Kind.weights self.now chosen.old work.old → IsRule W.Kind.stands self.now.live.now.table rule.now → keeps (live_in self.now.live.now.life.now) (transition W.Kind.stands (ranks_in self.now.live.now.table.shape.now) rule.now) ≡ true → set_in chosen.old rule.now.target ≡ true → set_in chosen.old (slice_index (children_in self.now.live.now.table.shape.now rule.now.left) place) ≡ false → Choice W.Kind.stands W.Kind.weights self.now chosen.new work.new × (set_in chosen.new (slice_index (children_in self.now.live.now.table.shape.now rule.now.left) place) ≡ true) }
    {
        let table = self.live.table;
        let children = rule.left.states();
        let child = children[place];
        for q in 0..table.shape.states() {
            if self.is_alike(child, q) {
                self.choose_state(rule, place, q, chosen, work);
            }
        }
    }

    // If the target of a rule is chosen and all its children are live, gives the states of the children's classes their factors.
    fn choose_children(&self, rule: &Rule<W>, chosen: &mut [bool; 48], work: &mut [Place<W>])
        ensures grown { Grown chosen.old chosen.new }
        ensures choice { Readiness W.Kind.stands W.Kind.weights self.now work.old → Choice W.Kind.stands W.Kind.weights self.now chosen.old work.old → IsRule W.Kind.stands self.now.live.now.table rule.now → Choice W.Kind.stands W.Kind.weights self.now chosen.new work.new × LeadsBack (live_in self.now.live.now.life.now) chosen.old chosen.new (transition W.Kind.stands (ranks_in self.now.live.now.table.shape.now) rule.now) }
    {
        if !is_set(chosen, usize::from(rule.target)) {
            return;
        }
        if !self.live.is_live_rule(rule) {
            return;
        }
        let table = self.live.table;
        for (k, child) in table.shape.children(&rule.left).iter().enumerate() {
            if !is_set(chosen, usize::from(*child)) {
                self.choose_class(rule, k, chosen, work);
            }
        }
    }

    // Chooses by every rule once, and says whether a state was chosen.
    fn choose_pass(&self, chosen: &mut [bool; 48], work: &mut [Place<W>]) -> bool
        ensures more { result ≡ true → unset chosen.new < unset chosen.old }
        ensures choice { Readiness W.Kind.stands W.Kind.weights self.now work.old → Choice W.Kind.stands W.Kind.weights self.now chosen.old work.old → Choice W.Kind.stands W.Kind.weights self.now chosen.new work.new }
        ensures rest { result ≡ false → Readiness W.Kind.stands W.Kind.weights self.now work.old → Choice W.Kind.stands W.Kind.weights self.now chosen.old work.old → (x : Transition W.Weight) → ContainsAt (automaton_of W.Kind.stands self.now.live.now.table).rules x → LeadsBack (live_in self.now.live.now.life.now) chosen.new chosen.new x }
    {
        let table = self.live.table;
        let before = missing(chosen);
        for rule in table.rules {
            self.choose_children(rule, chosen, work);
        }
        missing(chosen) < before
    }

    // Chooses a factor for each live state, in its place of the work list on the first side; an accepting state has the factor one.
    pub(crate) fn choose_factors(&self, work: &mut [Place<W>])
        ensures { Sound (automaton_of W.Kind.stands self.now.live.now.table) → DecidesLive W.Kind.weights (automaton_of W.Kind.stands self.now.live.now.table) (live_in self.now.live.now.life.now) → states_in self.now.live.now.table.shape.now ≤ length work.old → ToldFirst W.Kind.weights (automaton_of W.Kind.stands self.now.live.now.table) (live_in self.now.live.now.life.now) (cell_at self.now.marks.now) → Chosen W.Kind.weights (automaton_of W.Kind.stands self.now.live.now.table) (live_in self.now.live.now.life.now) (cell_at self.now.marks.now) (factor_at W.Kind.stands W.Kind.weights work.new) × ((q : ℕ) → live_in self.now.live.now.life.now q ≡ true → accepts_in self.now.live.now.table.shape.now q ≡ true → factor_at W.Kind.stands W.Kind.weights work.new q ≡ W.Kind.weights.one) }
    {
        let mut chosen = self.live.choose_accepting(work);
        while self.choose_pass(&mut chosen, work) {}
    }
}
