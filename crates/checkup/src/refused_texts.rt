//! The fault for which a manager refused one text: its definitions, rules that were to be created, or a statement.

use crate::examinations::{Examination, examine_definitions, examine_script};
use faults::{At, Colour, Diagnosis, NamedText, Span, draw};
use prepared::{mask, without_semicolon};
use std::alloc::{AllocError, Global};
use token::{Kind, next_token};

/// What a text was to be.
#[derive(Clone, Copy, Debug, PartialEq, Eq)]
pub enum Role {
    /// The definitions that a manager is opened with.
    Definitions,
    /// Rules that are created beside them.
    Rules,
    /// A statement, with `?` where a value may stand.
    Statement,
}

/// A text that a manager refused, what it was to be, and the number of the fault.
#[derive(Clone, Copy)]
pub struct RefusedText<'a> {
    pub role: Role,
    pub text: &'a [u8],
    pub number: u8,
}

/// In front of a statement stands this in a script.
const SESSION: &[u8] = b"A: ";

/// Faults that may lie in the values for parameters: of the type, of NULL, of the range and of the width.
const OF_VALUES: [u8; 4] = [5, 6, 9, 18];

/// Draws the fault for which a text was refused, as `skewguard check` draws it, behind a text. The definitions are
/// those that the manager was opened with; of definitions that were refused themselves they are passed over.
///
/// Nothing is drawn where no fault of this number is found: it lay in the rows, in what other transactions did, or in
/// values for parameters.
pub fn draw_refused_text(
    alloc: Global,
    definitions: &[u8],
    refused: RefusedText,
    drawn: &mut String,
) -> Result<(), AllocError> {
    match refused.role {
        Role::Definitions => draw_in_definitions(alloc, &[], refused, drawn),
        Role::Rules => draw_in_definitions(alloc, definitions, refused, drawn),
        Role::Statement => draw_in_statement(alloc, definitions, refused, drawn),
    }
}

/// Draws the fault of definitions that stand behind others.
fn draw_in_definitions(
    alloc: Global,
    before: &[u8],
    refused: RefusedText,
    drawn: &mut String,
) -> Result<(), AllocError> {
    let mut whole = Vec::from_slice(alloc, before)?;
    // (those before may end in a comment)
    whole.push(b'\n')?;
    whole.extend_from_slice(refused.text)?;
    let mut found = Examination::new(alloc);
    examine_definitions(alloc, &whole, &mut found)?;
    let front = before.len().saturating_add(1);
    draw_first(&mut found.faults, front, refused, drawn)
}

/// Draws the fault of a statement.
fn draw_in_statement(
    alloc: Global,
    definitions: &[u8],
    refused: RefusedText,
    drawn: &mut String,
) -> Result<(), AllocError> {
    let statement = without_semicolon(refused.text);
    let masked = mask(alloc, statement)?;
    if masked.as_slice() != statement && OF_VALUES.contains(&refused.number) {
        return Ok(());
    }
    if let Some(end) = end_of_first(&masked) {
        return draw_second(alloc, end, refused, drawn);
    }
    let mut found = Examination::new(alloc);
    examine_definitions(alloc, definitions, &mut found)?;
    found.faults.clear();
    let line = line_of(alloc, &masked)?;
    examine_script(alloc, &line, &mut found)?;
    draw_first(&mut found.notes, SESSION.len(), refused, drawn)?;
    draw_first(&mut found.faults, SESSION.len(), refused, drawn)
}

/// A statement as the line of a script.
fn line_of(alloc: Global, statement: &[u8]) -> Result<Vec<u8>, AllocError> {
    let mut line = Vec::from_slice(alloc, SESSION)?;
    line.extend_from_slice(statement)?;
    // (a line of its own: the statement may end in a comment)
    line.extend_from_slice(b"\n;")?;
    Ok(line)
}

/// Where the first semicolon of a text stands, outside of quoted texts and comments.
fn end_of_first(text: &[u8]) -> Option<usize> {
    let mut from = 0usize;
    for _turn in 0..text.len() {
        match next_token(text, from) {
            Ok(Some(token)) if token.kind == Kind::Semicolon => return Some(token.start),
            Ok(Some(token)) => from = token.end,
            _ => return None,
        }
    }
    None
}

/// Draws that something stands behind the semicolon of a statement.
fn draw_second(
    alloc: Global,
    end: usize,
    refused: RefusedText,
    drawn: &mut String,
) -> Result<(), AllocError> {
    let mut fault = Diagnosis::new(alloc, faults::Which::Script);
    let span = Span {
        start: end,
        end: end.saturating_add(1),
    };
    fault.place(2, At::Bytes(span));
    fault.say("a statement ends at its `;`")?;
    fault.advise(
        "One statement is run by a call. Run what stands behind the `;` by a call of its own.",
    )?;
    draw_if_meant(&fault, refused, drawn)
}

/// Draws the first of the faults of a text in front of which so many bytes stand.
fn draw_first(
    faults: &mut Vec<Diagnosis>,
    front: usize,
    refused: RefusedText,
    drawn: &mut String,
) -> Result<(), AllocError> {
    let Some(fault) = faults.first_mut() else {
        return Ok(());
    };
    if !is_behind(fault.at, front) {
        return Ok(());
    }
    fault.at = moved(fault.at, front);
    say_end(refused, fault)?;
    draw_if_meant(fault, refused, drawn)
}

/// Says of a fault at the semicolon that was put behind a statement that the statement ends there.
fn say_end(refused: RefusedText, fault: &mut Diagnosis) -> Result<(), AllocError> {
    match fault.at {
        At::Bytes(span) if span.start >= refused.text.len() && refused.role == Role::Statement => {
            fault.what.clear();
            fault.say("the statement ends too early")
        }
        _ => Ok(()),
    }
}

/// Whether a place is behind so many bytes, or nowhere.
fn is_behind(at: At, front: usize) -> bool {
    match at {
        At::Bytes(span) | At::Definition(span) => span.start >= front,
        At::Nowhere => true,
    }
}

/// A place in the text without its first so many bytes.
fn moved(at: At, front: usize) -> At {
    match at {
        At::Bytes(span) => At::Bytes(moved_span(span, front)),
        At::Definition(span) => At::Definition(moved_span(span, front)),
        At::Nowhere => At::Nowhere,
    }
}

fn moved_span(span: Span, front: usize) -> Span {
    Span {
        start: span.start.saturating_sub(front),
        end: span.end.saturating_sub(front),
    }
}

/// Draws a fault, if it is the one for which the text was refused.
fn draw_if_meant(
    fault: &Diagnosis,
    refused: RefusedText,
    drawn: &mut String,
) -> Result<(), AllocError> {
    if fault.number != refused.number {
        return Ok(());
    }
    let text = NamedText {
        name: name_of(refused.role),
        bytes: refused.text,
    };
    draw(text, fault, Colour::Plain, drawn)
}

/// What a text is called where a fault of it is drawn.
fn name_of(role: Role) -> &'static str {
    match role {
        Role::Definitions => "definitions",
        Role::Rules => "rules",
        Role::Statement => "statement",
    }
}
