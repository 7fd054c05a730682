// The symbols of a purchase order.
ghost use Rattle.std.specs.Prelude.{◌≡◌, ◌≤◌};
ghost use Rattle.std.specs.Result.{result_ok};
ghost use Rattle.orders.specs.Symbols.{symbol_number, symbol_rank, order_ranks, Named, Numbered};

use std::str::FromStr;

#[derive(Clone, Copy, PartialEq, Eq, Debug)]
pub enum Symbol {
    // what the scanner saw: words, a whole number, a decimal number, or nothing
    Text,
    Whole,
    Decimal,
    Missing,
    // what a reading makes of it
    Customer,
    Quantity,
    Price,
    Note,
    // its name, quantity and price
    Item,
    // a list of items: none, or one before the others
    Empty,
    Items,
    // the customer, the items, a note and the sum
    Order,
}

// A name or a number that no symbol has.
#[derive(Clone, Copy, PartialEq, Eq, Debug)]
pub struct UnknownSymbol;

// The ranks of all symbols, in order.
pub fn ranks() -> [usize; 12]
    ensures { result ≡ order_ranks }
{
    [0, 0, 0, 0, 1, 1, 1, 1, 3, 0, 2, 4]
}

impl Symbol {
    pub fn rank(self) -> usize
        ensures value { result ≡ symbol_rank self }
        ensures small { result ≤ 4 }
    {
        match self {
            Symbol::Text | Symbol::Whole | Symbol::Decimal | Symbol::Missing | Symbol::Empty => 0,
            Symbol::Customer | Symbol::Quantity | Symbol::Price | Symbol::Note => 1,
            Symbol::Items => 2,
            Symbol::Item => 3,
            Symbol::Order => 4,
        }
    }
}

// The number of a symbol in the table.
impl From<Symbol> for usize {
    ghost from_gives = { λ symbol number. number ≡ symbol_number symbol };

    fn from(symbol: Symbol) -> usize {
        symbol as usize
    }
}

impl TryFrom<usize> for Symbol {
    type Error = UnknownSymbol;

    ghost try_from_gives = { λ number res. Numbered number (result_ok res) };

    fn try_from(number: usize) -> Result<Symbol, UnknownSymbol> {
        match number {
            0 => Ok(Symbol::Text),
            1 => Ok(Symbol::Whole),
            2 => Ok(Symbol::Decimal),
            3 => Ok(Symbol::Missing),
            4 => Ok(Symbol::Customer),
            5 => Ok(Symbol::Quantity),
            6 => Ok(Symbol::Price),
            7 => Ok(Symbol::Note),
            8 => Ok(Symbol::Item),
            9 => Ok(Symbol::Empty),
            10 => Ok(Symbol::Items),
            11 => Ok(Symbol::Order),
            _ => Err(UnknownSymbol),
        }
    }
}

impl FromStr for Symbol {
    type Err = UnknownSymbol;

    ghost from_str_gives = { λ word res. Named word (result_ok res) };

    fn from_str(word: &str) -> Result<Symbol, UnknownSymbol> {
        match word {
            "text" => Ok(Symbol::Text),
            "whole" => Ok(Symbol::Whole),
            "decimal" => Ok(Symbol::Decimal),
            "missing" => Ok(Symbol::Missing),
            "customer" => Ok(Symbol::Customer),
            "quantity" => Ok(Symbol::Quantity),
            "price" => Ok(Symbol::Price),
            "note" => Ok(Symbol::Note),
            "item" => Ok(Symbol::Item),
            "empty" => Ok(Symbol::Empty),
            "items" => Ok(Symbol::Items),
            "order" => Ok(Symbol::Order),
            _ => Err(UnknownSymbol),
        }
    }
}
