// Numbers in their columns.
ghost use Rattle.std.specs.Prelude.{◌≡◌, ◌^◌, ◌<◌, ◌≤◌, pos, neg_ℤ, [], ◌∷◌, ◌++◌, length, IfOk, Decides, OnOk};
ghost use Rattle.std.specs.Option.{option_map};
ghost use Rattle.std.specs.Slice.Iter.{chunks_rest, chunks_size};
ghost use Rattle.layout.specs.Answers.{ReadsNumbers, number_line, weight_line};
ghost use Rattle.layout.specs.Fields.{field, ReadsNumber, ReadsCode};
ghost use Rattle.layout.specs.Numerals.{ReadsValue, BehindMinus, StartsNumber, ReadsField, ReadsSigned, Padded};

use std::alloc::{AllocError, Global};
use std::io::Write;
use std::slice::Chunks;

// The text behind its blanks.
fn skip_blanks(text: &[u8]) -> &[u8]
    ensures { Padded text.now result.now }
{
    let mut rest = text;
    while let [b' ', others @ ..] = rest {
        rest = others;
    }
    rest
}

// Whether a number may begin so: a zero stands only alone, and nothing but a minus before the digits.
fn starts_number(text: &[u8]) -> bool
    ensures { Decides result (StartsNumber text.now) }
{
    matches!(text, [b'0'] | [b'1'..=b'9', ..] | [b'-', b'1'..=b'9', ..])
}

// The value of decimal digits, or `None` where another byte stands among them.
fn value_of(text: &[u8]) -> Option<usize>
    requires { length text.now ≤ 12 }
    ensures { ReadsValue text.now result }
{
    let mut value = 0;
    for byte in text {
        if !byte.is_ascii_digit() {
            return None;
        }
        value = 10 * value + usize::from(*byte - b'0');
    }
    Some(value)
}

// What stands behind a minus, if the text begins with one.
fn behind_minus(text: &[u8]) -> Option<&[u8]>
    ensures { BehindMinus text.now (option_map (λ rest. rest.now) result) }
{
    match text {
        [b'-', rest @ ..] => Some(rest),
        _ => None,
    }
}

// Minus a number.
fn negative(number: usize) -> i64
    requires { number < 10 ^ 12 }
    ensures { result ≡ neg_ℤ (pos number) }
{
    -(number as i64)
}

// The number whose decimal digits these are, with a minus before those of a negative one.
fn read_signed(text: &[u8]) -> Option<i64>
    requires { length text.now ≤ 12 }
    ensures { ReadsSigned text.now result }
{
    if !starts_number(text) {
        return None;
    }
    match behind_minus(text) {
        Some(digits) => Some(negative(value_of(digits)?)),
        None => Some(value_of(text)? as i64),
    }
}

// The number at the right of so many columns.
#[tactic(auto, using(crate::proofs::Padding::padded_length, crate::proofs::Padding::field_read, crate::proofs::Padding::field_refused))]
fn read_field(text: &[u8], columns: usize) -> Option<i64>
    requires { columns ≤ 12 }
    ensures { ReadsField columns text.now result }
{
    if text.len() == columns {
        read_signed(skip_blanks(text))
    } else {
        None
    }
}

// The number in six columns.
#[tactic(auto, using(crate::proofs::Padding::number_read, crate::proofs::Padding::number_refused))]
pub fn read_number(text: &[u8]) -> Option<usize>
    ensures { ReadsNumber text.now result }
{
    usize::try_from(read_field(text, 6)?).ok()
}

// The number in twelve columns.
#[tactic(auto, using(crate::proofs::Padding::code_read))]
pub fn read_code(text: &[u8]) -> Option<i64>
    ensures { ReadsCode text.now result }
{
    read_field(text, 12)
}

// The fields of a part, of six columns each.
pub fn fields_of(part: &[u8]) -> Chunks<'_, u8>
    ensures rest { chunks_rest result ≡ part.now }
    ensures size { chunks_size result ≡ 6 }
{
    part.chunks(6)
}

// The numbers of a part in six columns each.
pub fn read_numbers(heap: Global, part: &[u8]) -> Result<Vec<usize>, AllocError>
    ensures { IfOk result (λ v. ReadsNumbers part.now v.items) }
{
    fields_of(part).filter_map(read_number).collect(heap)
}

// Writes a number at the right of its columns, with a minus if it is negative.
#[tactic(auto, using(crate::proofs::Styled::field_told))]
pub fn write_field(out: &mut Vec<u8>, columns: usize, number: i64) -> Result<(), AllocError>
    ensures { OnOk result (out.new.items ≡ out.old.items ++ field columns number) }
{
    write!(out, "{number:>columns$}").map_err(|_| AllocError)
}

// Writes a line: a letter and numbers in six columns each.
#[tactic(auto, using(crate::proofs::Written::fields_told, crate::proofs::Written::line_written))]
pub fn write_line(out: &mut Vec<u8>, letter: u8, numbers: &[usize]) -> Result<(), AllocError>
    ensures { OnOk result (out.new.items ≡ out.old.items ++ number_line letter numbers.now) }
{
    out.push(letter)?;
    for number in numbers {
        write!(out, "{number:>6}").map_err(|_| AllocError)?;
    }
    out.push(b'\n')?;
    Ok(())
}

// Writes the line of a weight: its table, whether it has a code, and the code.
#[tactic(auto, using(crate::proofs::Styled::weight_told, crate::proofs::Styled::none_told))]
pub fn write_weight(out: &mut Vec<u8>, table: usize, code: Option<i64>) -> Result<(), AllocError>
    ensures { OnOk result (out.new.items ≡ out.old.items ++ weight_line table code) }
{
    match code {
        Some(code) => writeln!(out, "W{table:>6}{:>6}{code:>12}", 1),
        None => writeln!(out, "W{table:>6}{:>6}{:>12}", 0, 0),
    }
    .map_err(|_| AllocError)
}
