// What a line of a page says.
#[derive(Clone, Copy, Debug, PartialEq, Eq)]
pub enum Line<'a> {
    Kind {
        number: usize,
    },
    Table {
        states: usize,
        ranks: &'a [u8],
    },
    Accept {
        state: usize,
    },
    Rule {
        symbol: usize,
        target: usize,
        weight: &'a [u8],
        children: &'a [u8],
    },
    End,
}
