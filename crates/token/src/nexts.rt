//! The next token of a text, and all of them.

ghost use Rattle.std.specs.Prelude.{◌≡◌, ◌<◌, ◌≤◌, false, drop, length, Option, Result, IfSome, IfOk};
ghost use Rattle.token.specs.Bytes as byte;
ghost use Rattle.token.specs.Lexer as spec;
ghost use Rattle.token.specs.Rules.{Tells, AreTokens, AreApart};
ghost use Rattle.value.specs.declared.refusals.Refusal.{Refusal};
ghost use Rattle.token.specs.declared.spans.Token.{Token};

use crate::kinds::Kind;
use crate::marks::read_mark;
use crate::spans::Token;
use crate::words::{Front, read_number, read_text, read_word};
use std::alloc::{AllocError, Global};
use value::Refusal;

fn is_blank(b: u8) -> bool
    ensures { result ≡ byte.is_blank b }
{
    b == b' ' || b == b'\t' || b == b'\n' || b == b'\r'
}

/// How many bytes of blanks and comments there are at the front.
fn gap_len(text: &[u8]) -> usize
    ensures value { result ≡ spec.gap false text.now }
    ensures within { result ≤ length text.now }
{
    let mut in_comment = false;
    for (at, b) in text.iter().enumerate() {
        if in_comment {
            in_comment = *b != b'\n';
        } else if text[at..].starts_with(b"--") {
            in_comment = true;
        } else if !is_blank(*b) {
            return at;
        }
    }
    text.len()
}

/// The token at the front, where no blank or comment is, or `None` for a bad one.
#[tactic(auto, using(crate::proofs::Within::front_none), unfolding(crate::specs::Lexer::front))]
fn read_front(text: &[u8]) -> Option<Front>
    ensures { result ≡ spec.front text.now }
{
    let [first, ..] = text else {
        return None;
    };
    if first.is_ascii_alphabetic() {
        read_word(text)
    } else if first.is_ascii_digit() {
        read_number(text)
    } else if *first == b'\'' {
        read_text(text)
    } else {
        read_mark(text)
    }
}

fn token_at(text: &[u8], start: usize) -> Token
    requires { start < length text.now }
    ensures value { result ≡ spec.token_at text.now start (spec.front (drop start text.now)) }
    ensures within { (start < result.end) × (result.end ≤ length text.now) }
{
    match read_front(&text[start..]) {
        None => Token {
            kind: Kind::Bad,
            start,
            end: text.len(),
        },
        Some(front) => Token {
            kind: front.kind,
            start,
            end: start + front.len,
        },
    }
}

/// The next token from an offset on. A bad one goes up to the end.
#[tactic(auto, using(crate::proofs::All::none_at_end), unfolding(crate::specs::Lexer::next_of, crate::specs::Lexer::start_of))]
fn token_from(text: &[u8], from: usize) -> Option<Token>
    ensures value { result ≡ spec.next_of text.now from }
    ensures within { IfSome result (λ t. (from ≤ t.start) × (t.start < t.end) × (t.end ≤ length text.now)) }
{
    if from >= text.len() {
        return None;
    }
    let start = from + gap_len(&text[from..]);
    if start >= text.len() {
        return None;
    }
    Some(token_at(text, start))
}

/// A bad token is refused where it stands.
fn refuse_bad(found: Option<Token>) -> Result<Option<Token>, Refusal>
    ensures { result ≡ spec.answer found }
{
    match found {
        None => Ok(None),
        Some(token) => match token.kind {
            Kind::Bad => Err(Refusal::Syntax { at: token.start }),
            _ => Ok(Some(token)),
        },
    }
}

/// The next token of a text, from an offset on, which is 0 or the end of the token before.
///
/// `None` says that only blanks and comments are left, or nothing, as where `from` is at the end or
/// past it. `Syntax` says that a bad token stands there,
/// and names the offset at which it begins; no other refusal comes, and no memory is taken.
pub fn next_token(text: &[u8], from: usize) -> Result<Option<Token>, Refusal>
    // As a function of the text.
    ensures value { result ≡ spec.answer (spec.next_of text.now from) }
    // In the words of the written rules: the answer is right, and no other is.
    ensures rules { Tells text.now from result }
    ensures only { (other : Result (Option Token) Refusal) → Tells text.now from other → other ≡ result }
{
    refuse_bad(token_from(text, from))
}

/// All tokens of a text, in their order.
///
/// A bad token is the last one: its kind is `Bad`, and it has all that is left of the text.
pub fn read_tokens(alloc: Global, text: &[u8]) -> Result<Vec<Token>, AllocError>
    // As a function of the text.
    ensures all { IfOk result (λ found. found.items ≡ spec.tokens_of text.now) }
    // Each is the next one behind the one before, and behind the last is none.
    ensures one_by_one { IfOk result (λ found. spec.IsTokens text.now 0 found.items) }
    // In the words of the written rules.
    ensures rules { IfOk result (λ found. AreTokens text.now 0 found.items) }
    ensures apart { IfOk result (λ found. AreApart text.now 0 found.items) }
{
    let mut found = Vec::new(alloc);
    let mut from = 0;
    while let Some(token) = token_from(text, from) {
        found.push(token)?;
        from = token.end;
    }
    Ok(found)
}
