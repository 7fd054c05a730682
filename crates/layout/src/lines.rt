// Reading the lines of a page.
ghost use Rattle.layout.specs.Lines.{ReadsLine};
ghost use Rattle.layout.specs.Parts.{Numbers, Few, Unbroken, ReadsEntry, Ends};
ghost use Rattle.std.specs.Prelude.{◌<◌, ◌∷◌, length, Decides, MatchOption};
ghost use Rattle.std.specs.List.{IsSplitAt};

use crate::fields::{fields_of, read_number};
use crate::line::Line;
use crate::reading::Reading;

// Whether the part is numbers in six columns each.
fn are_numbers(part: &[u8]) -> bool
    ensures { Decides result (Numbers part.now) }
{
    fields_of(part).all(|field| read_number(field).is_some())
}

// Whether the part has room for at most four numbers.
fn are_few(part: &[u8]) -> bool
    ensures { Decides result (Few part.now) }
{
    part.len() <= 24
}

// The field in the first six columns, and the text behind it.
fn first_field(text: &[u8]) -> Option<(&[u8], &[u8])>
    ensures { MatchOption result (length text.now < 6) (λ p. IsSplitAt text.now 6 p.0.now p.1.now) }
{
    text.split_at_checked(6)
}

// The line of a table, behind its letter.
#[tactic(auto, using(crate::proofs::Entries::table_none, crate::proofs::Entries::table_read))]
fn table_line(fields: &[u8]) -> Option<Line>
    ensures { ReadsEntry (84 ∷ fields.now) result }
{
    let (states, ranks) = first_field(fields)?;
    let states = read_number(states)?;
    are_numbers(ranks).then_some(Line::Table { states, ranks })
}

// The line of a rule, behind its letter: at most four children follow its weight.
fn rule_line(fields: &[u8]) -> Option<Line>
    requires { Unbroken fields.now }
    ensures { ReadsEntry (82 ∷ fields.now) result }
{
    let (symbol, rest) = first_field(fields)?;
    let (target, rest) = first_field(rest)?;
    let (weight, children) = rest.split_at_checked(12)?;
    let symbol = read_number(symbol)?;
    let target = read_number(target)?;
    if are_few(children) && are_numbers(children) {
        Some(Line::Rule {
            symbol,
            target,
            weight,
            children,
        })
    } else {
        None
    }
}

// What the text of a line says, if it is in the layout.
#[tactic(auto, using(crate::proofs::Entries::kind_read, crate::proofs::Entries::accept_read, crate::proofs::Entries::end_read))]
fn read_line(text: &[u8]) -> Option<Line>
    requires { Unbroken text.now }
    ensures { ReadsEntry text.now result }
{
    let (letter, fields) = text.split_first()?;
    match char::from(*letter) {
        'K' => read_number(fields).map(|number| Line::Kind { number }),
        'T' => table_line(fields),
        'A' => read_number(fields).map(|state| Line::Accept { state }),
        'R' => rule_line(fields),
        'E' => fields.is_empty().then_some(Line::End),
        _ => None,
    }
}

// Where the first line of the text ends.
fn line_end(text: &[u8]) -> Option<usize>
    ensures { Ends text.now result }
{
    text.iter().position(|byte| *byte == b'\n')
}

// The line that begins at a place of the page.
pub fn line_at(page: &[u8], at: usize) -> Option<Reading>
    ensures { ReadsLine page.now at result }
{
    let rest = page.get(at..)?;
    let end = line_end(rest)?;
    let line = read_line(&rest[..end])?;
    Some(Reading {
        line,
        next: at + end + 1,
    })
}
