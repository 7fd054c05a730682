// The rules of one hash are a chain, in the order of the rules: for each hash the first rule's place plus one, and for each place the next one's plus one;
// 0 where there is none.
mod calls;
mod links;

#[derive(Clone, Copy)]
pub struct RuleIndex {
    heads: [u16; 1024],
    nexts: [u16; 1024],
}
