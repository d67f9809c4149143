//! Which numbers of a text are parameters, and where none may stand.

ghost use Rattle.std.specs.Prelude.{◌≡◌, ◌≤◌, ◌<◌, ◌+◌, ◌^◌, ◌∷◌, ◌++◌, List, length, not, IfOk};
ghost use Rattle.std.specs.List.{prefix_len};
ghost use Rattle.token.specs.declared.spans.Token.{Token};
ghost use Rattle.syntax.specs.Lexemes.{bytes_of};
ghost use Rattle.prepared.specs.Masks.{is_question};
ghost use Rattle.prepared.specs.Numbers as spec;

use std::alloc::{AllocError, Global};
use token::{Kind, Token};

/// The bytes of a token; none where it is no part of the text.
fn bytes<'a>(text: &'a [u8], token: &Token) -> &'a [u8]
    ensures value { result.now ≡ bytes_of text.now token.now }
    ensures within { 0 < length result.now → token.now.start + length result.now ≤ length text.now }
{
    if token.start <= token.end && token.end <= text.len() {
        &text[token.start..token.end]
    } else {
        &[]
    }
}

/// Whether what a sum adds to, or takes from, may end with such a token.
fn ends_operand(kind: Kind) -> bool
    ensures { result ≡ spec.ends_operand kind }
{
    matches!(kind, Kind::Name | Kind::Number | Kind::Text | Kind::Close)
}

fn is_sign(kind: Kind) -> bool
    ensures { result ≡ spec.is_sign kind }
{
    matches!(kind, Kind::Plus | Kind::Minus)
}

fn is_text(kind: Kind) -> bool
    ensures { result ≡ spec.is_text kind }
{
    matches!(kind, Kind::Text)
}

fn is_number(kind: Kind) -> bool
    ensures { result ≡ spec.is_number kind }
{
    matches!(kind, Kind::Number)
}

/// How many bytes stand before the first `?`.
fn count_before_question(bytes: &[u8]) -> usize
    ensures value { result ≡ prefix_len (λ b. not (is_question b)) bytes.now }
    ensures within { result ≤ length bytes.now }
{
    bytes.iter().take_while(|byte| **byte != b'?').count()
}

/// Where a `?` stands in a token, unless it is the whole token, and has no sign.
fn find_stray_in(text: &[u8], token: &Token, is_signed: bool) -> Option<usize>
    ensures { result ≡ spec.stray_at text.now is_signed token.now }
{
    if is_text(token.kind) {
        return None;
    }
    let bytes = bytes(text, token);
    let before = count_before_question(bytes);
    if before == bytes.len() || bytes.len() == 1 && !is_signed {
        None
    } else {
        Some(token.start + before)
    }
}

/// The first parameter that stands directly behind a sign that is no operator of a sum, or is a part of a longer token
/// of the mask.
#[tactic(auto, unfolding(crate::specs::Numbers::stray))]
pub fn find_stray(text: &[u8], tokens: &[Token]) -> Option<usize>
    ensures { result ≡ spec.stray text.now tokens.now }
{
    let mut behind_operand = false;
    let mut behind_sign = false;
    for token in tokens {
        if let Some(at) = find_stray_in(text, token, behind_sign) {
            return Some(at);
        }
        behind_sign = is_sign(token.kind) && !behind_operand;
        behind_operand = ends_operand(token.kind);
    }
    None
}

/// Puts a number behind the others, where a token is one, and gives how many parameters there are then.
fn put_number(
    text: &[u8],
    token: &Token,
    numbers: &mut Vec<Option<usize>>,
    count: usize,
) -> Result<usize, AllocError>
    requires { count + 1 < 2 ^ 64 }
    ensures put { IfOk result (λ more. (rest : List Token)
        → numbers.new.items ++ spec.numbers_from text.now more rest
        ≡ numbers.old.items ++ spec.numbers_from text.now count (token.now ∷ rest)) }
    ensures within { IfOk result (λ more. more ≤ count + 1) }
{
    if !is_number(token.kind) {
        return Ok(count);
    }
    if bytes(text, token) != b"?".as_slice() {
        numbers.push(None)?;
        return Ok(count);
    }
    numbers.push(Some(count))?;
    Ok(count + 1)
}

/// For each number among the tokens of a text's mask, in reading order, which parameter it is, if it is one.
pub fn find_numbers(
    alloc: Global,
    text: &[u8],
    tokens: &[Token],
) -> Result<Vec<Option<usize>>, AllocError>
    ensures { IfOk result (λ numbers. numbers.items ≡ spec.numbers_from text.now 0 tokens.now) }
{
    let mut numbers = Vec::new(alloc);
    let mut count = 0;
    for token in tokens {
        count = put_number(text, token, &mut numbers, count)?;
    }
    Ok(numbers)
}

/// How many of these numbers are parameters.
pub fn count_parameters(numbers: &[Option<usize>]) -> usize
    ensures { result ≡ spec.parameter_count numbers.now }
{
    let mut count = 0;
    for number in numbers {
        if number.is_some() {
            count += 1;
        }
    }
    count
}
