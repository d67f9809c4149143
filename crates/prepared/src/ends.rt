//! The `;` at the end of a statement.

ghost use Rattle.std.specs.Prelude.{◌≡◌, ℕ, ◌+◌, ◌^◌, ◌<◌, IsTrue, length};
ghost use Rattle.prepared.specs.declared.masks.Next.TheVariants as which;
ghost use Rattle.prepared.specs.Ends as spec;

use crate::masks::{Next, find_next};
use token::next_token;

/// Where what stands next ends.
fn end_of(next: Next) -> usize
    requires { (at : ℕ) → next ≡ which.Parameter at → at + 1 < 2 ^ 64 }
    ensures { result ≡ spec.end_of next }
{
    match next {
        Next::Token(end) => end,
        Next::Parameter(at) => at + 1,
    }
}

/// Where the last token or parameter of a text ends; where the text has bytes of neither, the last before them.
#[tactic(auto, unfolding(crate::specs::Ends::last_end))]
fn find_last_end(text: &[u8]) -> usize
    ensures { result ≡ spec.last_end text.now }
{
    let mut end = 0;
    for _turn in 0..text.len() {
        let Some(next) = find_next(text, end) else {
            return end;
        };
        end = end_of(next);
    }
    end
}

/// Whether nothing but blanks and comments stands behind an offset.
fn is_end(text: &[u8], from: usize) -> bool
    ensures { result ≡ spec.is_end text.now from }
{
    match next_token(text, from) {
        Ok(None) => true,
        _ => false,
    }
}

fn is_semicolon_at(text: &[u8], at: usize) -> bool
    ensures value { result ≡ spec.is_semicolon_at text.now at }
    ensures within { IsTrue result → at < length text.now }
{
    match text.get(at) {
        Some(byte) => *byte == b';',
        None => false,
    }
}

/// A statement without the `;` that is its last token, and all that stands behind that; the whole text where it has
/// none there. So the offsets of a fault are those of the text.
pub fn without_semicolon(text: &[u8]) -> &[u8]
    ensures { result.now ≡ spec.without_semicolon text.now }
{
    let end = find_last_end(text);
    let last = end.saturating_sub(1);
    if is_semicolon_at(text, last) && is_end(text, end) {
        &text[..last]
    } else {
        text
    }
}
