// Memory to lend: rules and places that hold nothing yet.
ghost use Rattle.std.specs.Prelude.{◌≡◌, None};

use crate::left_side::LeftSide;
use crate::place::Place;
use crate::rule::Rule;
use kinds::Kind;
use trees::Node;

impl<W: Kind> Rule<W> {
    // A rule of weight one, for memory that holds no rule of a table.
    pub fn blank() -> Rule<W>
        ensures target { result.target ≡ 0 }
        ensures symbol { result.left.symbol ≡ 0 }
        ensures weight { W.Kind.stands result.weight ≡ W.Kind.weights.one }
    {
        Rule {
            left: LeftSide {
                symbol: 0,
                children: [0; 4],
            },
            target: 0,
            weight: W::one(),
        }
    }
}

impl<W: Kind> Place<W> {
    // A place without runs.
    pub fn blank() -> Place<W>
        ensures first { result.first ≡ None }
        ensures second { result.second ≡ None }
    {
        Place {
            node: Node {
                symbol: 0,
                children: [0; 4],
            },
            first: None,
            second: None,
            mark: None,
        }
    }
}
