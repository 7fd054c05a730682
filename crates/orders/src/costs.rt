// The rules of the table: what it costs to read a part of a purchase order in a certain way.
ghost use Rattle.std.specs.Prelude.{◌≤◌, length};

use crate::line::Line;
use crate::state::State;
use crate::symbol::Symbol;

fn line(symbol: Symbol, children: &'static [State], target: State, cost: i32) -> Line
    requires { length children.now ≤ 4 }
{
    Line {
        symbol,
        children,
        target,
        cost,
    }
}

pub fn lines() -> [Line; 18] {
    [
        line(Symbol::Text, &[], State::Text, 0),
        line(Symbol::Whole, &[], State::Whole, 0),
        line(Symbol::Decimal, &[], State::Decimal, 0),
        line(Symbol::Missing, &[], State::Missing, 0),
        line(Symbol::Customer, &[State::Text], State::Customer, 0),
        line(Symbol::Customer, &[State::Missing], State::Customer, 50),
        line(Symbol::Quantity, &[State::Whole], State::Quantity, 0),
        line(Symbol::Quantity, &[State::Decimal], State::Quantity, 20),
        line(Symbol::Quantity, &[State::Missing], State::Quantity, 10),
        line(Symbol::Price, &[State::Decimal], State::Price, 0),
        line(Symbol::Price, &[State::Whole], State::Price, 2),
        line(Symbol::Price, &[State::Missing], State::Price, 10),
        line(Symbol::Note, &[State::Text], State::Note, 3),
        line(Symbol::Note, &[State::Missing], State::Note, 0),
        line(
            Symbol::Item,
            &[State::Text, State::Quantity, State::Price],
            State::Item,
            1,
        ),
        line(Symbol::Empty, &[], State::Items, 0),
        line(Symbol::Items, &[State::Item, State::Items], State::Items, 0),
        line(
            Symbol::Order,
            &[State::Customer, State::Items, State::Note, State::Price],
            State::Order,
            0,
        ),
    ]
}
