//! What the bytes of a name and of a text stand for.

ghost use Rattle.std.specs.Prelude.{◌≡◌, ◌-◌, false, IfOk};
ghost use Rattle.token.specs.Bytes.{Text, name_of};
ghost use Rattle.token.specs.Rules.{in_quotes};
ghost use Rattle.token.specs.Readings.{with_quotes_once, between_quotes};

use std::alloc::{AllocError, Global};

/// A word as a name: in upper case, since case does not count (SQL-92, identifiers).
pub fn name_bytes(alloc: Global, spelling: &[u8]) -> Result<Vec<u8>, AllocError>
    ensures { IfOk result (λ name. name.items ≡ name_of spelling.now) }
{
    let mut name = Vec::with_capacity(alloc, spelling.len())?;
    for b in spelling {
        name.push(b.to_ascii_uppercase())?;
    }
    Ok(name)
}

fn strip_quotes<'a>(spelling: &'a [u8]) -> &'a [u8]
    ensures { result.now ≡ between_quotes spelling.now }
{
    if spelling.len() < 2 {
        return &[];
    }
    &spelling[1..spelling.len() - 1]
}

fn undouble(alloc: Global, bytes: &[u8]) -> Result<Vec<u8>, AllocError>
    ensures { IfOk result (λ text. text.items ≡ with_quotes_once false bytes.now) }
{
    let mut text = Vec::with_capacity(alloc, bytes.len())?;
    let mut second = false;
    for b in bytes {
        if second && *b == b'\'' {
            second = false;
        } else {
            text.push(*b)?;
            second = *b == b'\'';
        }
    }
    Ok(text)
}

/// What a text in quotes stands for: the bytes between its quotes, with each doubled quote once.
pub fn text_bytes(alloc: Global, spelling: &[u8]) -> Result<Vec<u8>, AllocError>
    ensures value { IfOk result (λ text. text.items ≡ with_quotes_once false (between_quotes spelling.now)) }
    ensures inside { (inside : Text) → spelling.now ≡ in_quotes inside → IfOk result (λ text. text.items ≡ inside) }
{
    undouble(alloc, strip_quotes(spelling))
}
