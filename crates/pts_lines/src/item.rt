ghost use Rattle.std.specs.Prelude.{◌≡◌, ◌≤◌, length, if◌then◌else◌, Some, None};
ghost use Rattle.pts_names.specs.Name.{is_plain};
ghost use Rattle.pts_lines.specs.Items.{plain as a_plain, label as a_label, placed as a_name, number as a_number, colon as a_colon, assign as an_assign, semicolon as a_semicolon, sign as a_sign, is_label, units, first_item};
ghost use Rattle.pts_lines.specs.Forms.{AnswersAs, ended};

use pts_bytes::number_up_to;
use pts_grammar::Kind;
use pts_names::Name;
use pts_parser::ReadFault;
use pts_tokens::Token;
use std::alloc::Global;

/// A plain name, and the tokens after it.
pub(crate) fn plain(
    tokens: &[(usize, Token)],
    length: usize,
) -> Result<(Name, &[(usize, Token)]), ReadFault>
    ensures { AnswersAs (λ v. (v.0, v.1.now)) result (first_item a_plain length tokens.now) }
{
    let Some((spot, behind)) = tokens.split_first() else {
        return Err(ReadFault::Expected(length, Kind::Plain));
    };
    match &spot.1 {
        Token::Name(name) if name.is_plain() => Ok((name.copy()?, behind)),
        _ => Err(ReadFault::Expected(spot.0, Kind::Plain)),
    }
}

/// A plain name of at most 64 bytes, and the tokens after it.
pub(crate) fn label(
    tokens: &[(usize, Token)],
    length: usize,
) -> Result<(Name, &[(usize, Token)]), ReadFault>
    ensures { AnswersAs (λ v. (v.0, v.1.now)) result (first_item a_label length tokens.now) }
{
    let Some((spot, behind)) = tokens.split_first() else {
        return Err(ReadFault::Expected(length, Kind::Plain));
    };
    match &spot.1 {
        Token::Name(name) if is_label(name) => Ok((name.copy()?, behind)),
        _ => Err(ReadFault::Expected(spot.0, Kind::Plain)),
    }
}

/// Any name with its place, and the tokens after it.
pub(crate) fn name(
    tokens: &[(usize, Token)],
    length: usize,
) -> Result<((usize, Name), &[(usize, Token)]), ReadFault>
    ensures { AnswersAs (λ v. (v.0, v.1.now)) result (first_item a_name length tokens.now) }
{
    let Some((spot, behind)) = tokens.split_first() else {
        return Err(ReadFault::Expected(length, Kind::Name));
    };
    match &spot.1 {
        Token::Name(name) => Ok(((spot.0, name.copy()?), behind)),
        _ => Err(ReadFault::Expected(spot.0, Kind::Name)),
    }
}

/// A number of units, and the tokens after it.
pub(crate) fn number(
    tokens: &[(usize, Token)],
    length: usize,
) -> Result<(u64, &[(usize, Token)]), ReadFault>
    ensures { AnswersAs (λ v. (v.0, v.1.now)) result (first_item a_number length tokens.now) }
{
    let Some((spot, behind)) = tokens.split_first() else {
        return Err(ReadFault::Expected(length, Kind::Number));
    };
    if let Token::Number(digits) = &spot.1 {
        if let Some(number) = number_up_to(10_000_000, digits.text().as_bytes()) {
            return Ok((number, behind));
        }
    }
    Err(ReadFault::Expected(spot.0, Kind::Number))
}

/// The tokens after `:`.
pub(crate) fn colon(
    tokens: &[(usize, Token)],
    length: usize,
) -> Result<&[(usize, Token)], ReadFault>
    ensures { AnswersAs (λ v. (tt, v.now)) result (first_item a_colon length tokens.now) }
{
    let Some((spot, behind)) = tokens.split_first() else {
        return Err(ReadFault::Expected(length, Kind::Colon));
    };
    match &spot.1 {
        Token::Colon => Ok(behind),
        _ => Err(ReadFault::Expected(spot.0, Kind::Colon)),
    }
}

/// The tokens after `:=`.
pub(crate) fn assign(
    tokens: &[(usize, Token)],
    length: usize,
) -> Result<&[(usize, Token)], ReadFault>
    ensures { AnswersAs (λ v. (tt, v.now)) result (first_item an_assign length tokens.now) }
{
    let Some((spot, behind)) = tokens.split_first() else {
        return Err(ReadFault::Expected(length, Kind::Assign));
    };
    match &spot.1 {
        Token::Assign => Ok(behind),
        _ => Err(ReadFault::Expected(spot.0, Kind::Assign)),
    }
}

/// The tokens after `;`.
pub(crate) fn semicolon(
    tokens: &[(usize, Token)],
    length: usize,
) -> Result<&[(usize, Token)], ReadFault>
    ensures { AnswersAs (λ v. (tt, v.now)) result (first_item a_semicolon length tokens.now) }
{
    let Some((spot, behind)) = tokens.split_first() else {
        return Err(ReadFault::Expected(length, Kind::Semicolon));
    };
    match &spot.1 {
        Token::Semicolon => Ok(behind),
        _ => Err(ReadFault::Expected(spot.0, Kind::Semicolon)),
    }
}

/// Whether `:` stands there and not `:=`, and the tokens after it.
pub(crate) fn sign(
    tokens: &[(usize, Token)],
    length: usize,
) -> Result<(bool, &[(usize, Token)]), ReadFault>
    ensures { AnswersAs (λ v. (v.0, v.1.now)) result (first_item a_sign length tokens.now) }
{
    let Some((spot, behind)) = tokens.split_first() else {
        return Err(ReadFault::Expected(length, Kind::Assign));
    };
    match &spot.1 {
        Token::Colon => Ok((true, behind)),
        Token::Assign => Ok((false, behind)),
        _ => Err(ReadFault::Expected(spot.0, Kind::Assign)),
    }
}

/// Nothing is left.
pub(crate) fn end(tokens: &[(usize, Token)], length: usize) -> Result<(), ReadFault>
    ensures { AnswersAs (λ v. tt) result (ended length tokens.now) }
{
    match tokens.first() {
        None => Ok(()),
        Some(spot) => Err(ReadFault::Expected(spot.0, Kind::End)),
    }
}

/// A plain name of at most 64 bytes.
fn is_label(name: &Name) -> bool
    ensures { result ≡ is_label name.now }
{
    name.is_plain() && name.text().len() <= 64
}
