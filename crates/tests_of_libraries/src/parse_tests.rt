//! Texts with the places at which they are refused, written out by hand.

use parse::{parse_script, parse_statement};
use std::alloc::{AllocError, Global};
use std::test::Fail;
use value::Refusal;

/// The offset that a refusal names: of Syntax, or of TooDeep.
#[derive(Clone, Copy, PartialEq, Eq)]
enum Place {
    Taken,
    Syntax(usize),
    TooDeep(usize),
    Other,
}

/// The place at which a text is refused.
fn place_of<T: Drop>(answer: Result<T, Refusal>) -> Place {
    let place = place_in(&answer);
    drop(answer);
    place
}

/// The place that an answer names.
fn place_in<T>(answer: &Result<T, Refusal>) -> Place {
    match answer {
        Ok(_) => Place::Taken,
        Err(Refusal::Syntax { at }) => Place::Syntax(*at),
        Err(Refusal::TooDeep { at }) => Place::TooDeep(*at),
        Err(_) => Place::Other,
    }
}

/// A comparison in so many parentheses.
fn in_parentheses(alloc: Global, open: usize) -> Result<Vec<u8>, AllocError> {
    let mut text = Vec::from_slice(alloc, b"SELECT ID FROM ACCT WHERE ")?;
    for _ in 0..open {
        text.push(b'(')?;
    }
    text.extend_from_slice(b"BAL = 0")?;
    for _ in 0..open {
        text.push(b')')?;
    }
    Ok(text)
}

/// The place at which so many bytes of such a comparison are refused.
fn place_of_nested(alloc: Global, open: usize, bytes: usize) -> Result<Place, AllocError> {
    let text = in_parentheses(alloc, open)?;
    Ok(match text.get(..bytes) {
        Some(beginning) => place_of(parse_statement(alloc, beginning)),
        None => Place::Other,
    })
}

/// The 65th is refused, which is the byte 90, also where the text ends with it.
#[test]
fn sixty_five_parentheses(rt: HostRuntime) -> Result<(), Fail> {
    assert!(rt; place_of_nested(rt.alloc(), 65, 163)? == Place::TooDeep(90));
    assert!(rt; place_of_nested(rt.alloc(), 65, 91)? == Place::TooDeep(90));
    assert!(rt; place_of_nested(rt.alloc(), 64, 161)? == Place::Taken);
    Ok(())
}

/// A script whose last text does not end.
const UNFINISHED: &[u8] = b"A: BEGIN;\nA: INSERT INTO ACCT VALUES (1, 'KI";

/// What is answered to the first bytes of the unfinished script.
fn wanted(bytes: usize) -> Place {
    match bytes {
        0 | 9 | 10 => Place::Taken,
        4..=7 => Place::Syntax(3),
        14..=18 => Place::Syntax(13),
        21..=23 => Place::Syntax(20),
        31..=35 => Place::Syntax(30),
        42..=44 => Place::Syntax(41),
        other => Place::Syntax(other),
    }
}

/// Whether this is answered to the first bytes of it.
fn is_wanted(alloc: Global, bytes: usize) -> bool {
    match UNFINISHED.get(..bytes) {
        Some(beginning) => place_of(parse_script(alloc, beginning)) == wanted(bytes),
        None => false,
    }
}

/// The last beginning is the whole, which is refused at the quote.
#[test]
fn every_beginning(rt: HostRuntime) {
    assert_eq!(rt; UNFINISHED.len(), 44);
    for bytes in 0..=UNFINISHED.len() {
        assert!(rt; is_wanted(rt.alloc(), bytes), "of {bytes} bytes");
    }
}

/// NULL is a value to put in and to set, and no part of an expression.
#[test]
fn null_is_no_expression(rt: HostRuntime) {
    let text = b"SELECT ID FROM ACCT WHERE BAL = NULL";
    assert!(rt; place_of(parse_statement(rt.alloc(), text)) == Place::Syntax(32));
}

#[test]
fn number_past_the_limit(rt: HostRuntime) {
    let text = b"INSERT INTO ACCT VALUES (9000000000000000)";
    assert!(rt; place_of(parse_statement(rt.alloc(), text)) == Place::Syntax(25));
}
