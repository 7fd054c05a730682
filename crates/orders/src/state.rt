// The states of the table: what a part of a purchase order was read as.
ghost use Rattle.std.specs.Prelude.{◌≡◌};
ghost use Rattle.orders.specs.Tables.{state_number};

#[derive(Clone, Copy, PartialEq, Eq, Debug)]
pub enum State {
    Text,
    Whole,
    Decimal,
    Missing,
    Customer,
    Quantity,
    Price,
    Note,
    Item,
    Items,
    Order,
}

// The number of a state in the table.
impl From<State> for usize {
    ghost from_gives = { λ state number. number ≡ state_number state };

    fn from(state: State) -> usize {
        state as usize
    }
}
