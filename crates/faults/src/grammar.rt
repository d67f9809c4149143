//! What is wrong with a text that is none of the language.

use crate::diagnoses::{At, Diagnosis};
use crate::expected::push_followers;
use crate::hints::{Stop, push_hint};
use crate::places::{Span, between, push_printable};
use crate::words::push_choice;
use std::alloc::{AllocError, Global};
use token::{Kind, Token, read_tokens};
use value::Refusal;

/// Says what is wrong with a text that its parser refused so, if the refusal says something of the text: `Syntax` and
/// `TooDeep` do, and else nothing is said.
pub fn diagnose_grammar(
    alloc: Global,
    bytes: &[u8],
    refusal: &Refusal,
    diagnosis: &mut Diagnosis,
) -> Result<bool, AllocError> {
    match refusal {
        Refusal::Syntax { at } => syntax(alloc, bytes, *at, diagnosis)?,
        Refusal::TooDeep { at } => too_deep(*at, diagnosis)?,
        _ => return Ok(false),
    }
    Ok(true)
}

fn too_deep(at: usize, diagnosis: &mut Diagnosis) -> Result<(), AllocError> {
    let span = Span {
        start: at,
        end: at.saturating_add(1),
    };
    diagnosis.place(19, At::Bytes(span));
    diagnosis.say("the text nests too deep")?;
    diagnosis.advise(
        "At most 64 parentheses are open at once, and this one is the 65th. AND and OR need none around their parts.",
    )
}

/// The tokens of a definition or line of a script that stand before an offset, the offset at which it begins, and the
/// token there, if one is left.
#[derive(Clone, Copy)]
struct Around<'a> {
    start: usize,
    before: &'a [Token],
    token: Option<Token>,
}

fn find_around<'a>(tokens: &'a [Token], at: usize) -> Around<'a> {
    let mut start = 0usize;
    let mut first = 0usize;
    for (place, token) in tokens.iter().enumerate() {
        if token.start >= at {
            return Around {
                start,
                before: tokens.get(first..place).unwrap_or(&[]),
                token: Some(*token),
            };
        }
        if token.kind == Kind::Semicolon {
            start = token.end;
            first = place.saturating_add(1);
        }
    }
    Around {
        start,
        before: tokens.get(first..).unwrap_or(&[]),
        token: None,
    }
}

fn syntax(
    alloc: Global,
    bytes: &[u8],
    at: usize,
    diagnosis: &mut Diagnosis,
) -> Result<(), AllocError> {
    let tokens = read_tokens(alloc, bytes)?;
    let around = find_around(&tokens, at);
    let mut kinds = Vec::new(alloc);
    let beginning = between(bytes, around.start, at);
    push_followers(alloc, diagnosis.which, beginning, &mut kinds)?;
    match around.token {
        None => say_end(alloc, around.before, &kinds, diagnosis),
        Some(token) => {
            let stop = Stop {
                which: diagnosis.which,
                text: bytes,
                before: around.before,
                token,
                kinds: &kinds,
            };
            say_stop(alloc, &stop, diagnosis)
        }
    }
}

/// That the text ends behind these tokens, where these kinds may stand.
fn say_end(
    alloc: Global,
    before: &[Token],
    kinds: &[Kind],
    diagnosis: &mut Diagnosis,
) -> Result<(), AllocError> {
    let end = before.last().map_or(0, |token| token.end);
    diagnosis.place(2, At::Bytes(Span { start: end, end }));
    diagnosis.say("the text ends too early")?;
    push_expected(alloc, kinds, &mut diagnosis.advice)
}

/// That a token may not stand where it does.
fn say_stop(alloc: Global, stop: &Stop, diagnosis: &mut Diagnosis) -> Result<(), AllocError> {
    diagnosis.place(2, At::Bytes(shown_span(stop.token)));
    push_stop(stop, &mut diagnosis.what)?;
    push_hint(alloc, stop, &mut diagnosis.advice)?;
    // (a number that may not stand where one may is too great there, which the hint tells)
    if stop.may_be(stop.token.kind) {
        return Ok(());
    }
    push_expected(alloc, stop.kinds, &mut diagnosis.advice)
}

/// A line of what may stand there, if that is known.
fn push_expected(alloc: Global, kinds: &[Kind], advice: &mut String) -> Result<(), AllocError> {
    if kinds.is_empty() {
        return Ok(());
    }
    advice.push_str("Here may stand ")?;
    push_choice(alloc, kinds, advice)?;
    advice.push_str(".\n")
}

/// The bytes of a token; of a bad one, which goes to the end of the text, the first.
fn shown_span(token: Token) -> Span {
    Span {
        start: token.start,
        end: if token.kind == Kind::Bad {
            token.start.saturating_add(1)
        } else {
            token.end
        },
    }
}

/// What may not stand there.
fn push_stop(stop: &Stop, what: &mut String) -> Result<(), AllocError> {
    if stop.token.kind == Kind::Bad {
        return what.push_str(bad(stop));
    }
    let end = stop.token.end.min(stop.token.start.saturating_add(40));
    what.push_str("`")?;
    push_printable(between(stop.text, stop.token.start, end), what)?;
    what.push_str("` may not stand here")
}

/// Which token is none of the language.
fn bad(stop: &Stop) -> &'static str {
    match stop.bytes().first() {
        Some(b'\'') => "this quote opens no text",
        Some(b'0'..=b'9') => "this number is too great",
        Some(b'a'..=b'z' | b'A'..=b'Z') => "this name is too long",
        _ => "no word, number, text or sign begins here",
    }
}
