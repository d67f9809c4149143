//! Marks, at the front of a text.

ghost use Rattle.std.specs.Prelude.{◌≡◌, map, Some};
ghost use Rattle.token.specs.Lexer as spec;

use crate::kinds::{Kind, MARKS};
use crate::words::Front;

fn find_mark(marks: &[(&[u8], Kind)], text: &[u8]) -> Option<Front>
    ensures { result ≡ spec.find_mark (map (λ m. (m.0.now, m.1)) marks.now) text.now }
{
    for (spelling, kind) in marks {
        if text.starts_with(spelling) {
            return Some(Front {
                kind: *kind,
                len: spelling.len(),
            });
        }
    }
    None
}

/// A mark of one byte, with which no other mark begins.
fn one_byte(kind: Kind) -> Option<Front>
    ensures { result ≡ Some (record { kind = kind; len = 1 }) }
{
    Some(Front { kind, len: 1 })
}

/// The longest mark at the front, by its first byte.
#[tactic(auto, using(crate::proofs::FirstBytes::no_mark), unfolding(crate::specs::Lexer::mark))]
pub fn read_mark(text: &[u8]) -> Option<Front>
    ensures { result ≡ spec.mark text.now }
{
    let [first, ..] = text else {
        return None;
    };
    match *first {
        b',' => one_byte(Kind::Comma),
        b'=' => one_byte(Kind::Equal),
        b'(' => one_byte(Kind::Open),
        b')' => one_byte(Kind::Close),
        b'.' => one_byte(Kind::Dot),
        b';' => one_byte(Kind::Semicolon),
        b':' => one_byte(Kind::Colon),
        b'*' => one_byte(Kind::Star),
        b'+' => one_byte(Kind::Plus),
        b'-' => one_byte(Kind::Minus),
        b'<' | b'>' => find_mark(&MARKS, text),
        _ => None,
    }
}
