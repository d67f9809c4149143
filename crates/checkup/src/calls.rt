//! The calls.

use crate::examinations::{Examination, Texts, examine, examine_definitions};
use crate::objects::push_object;
use crate::texts::show;
use diagnosis::{DefinitionsText, diagnose_definitions};
use faults::{Colour, Diagnosis, NamedText, Which, diagnose_grammar, draw};
use parse::parse_schema;
use std::alloc::{AllocError, Global};
use std::io::Write;
use thiserror::Error;
use value::Refusal;

/// How what is found is written.
#[derive(Clone, Copy, Debug, PartialEq, Eq)]
pub enum Style {
    /// For a person.
    Text(Colour),
    /// For an editor: one JSON object on one line.
    Json,
}

/// Whether the texts have a fault.
#[derive(Clone, Copy, Debug, PartialEq, Eq)]
pub enum Health {
    Well,
    Faulty,
}

/// Why nothing was found out.
#[derive(Debug, Drop, Error)]
pub enum CheckFault {
    #[error("no memory is left")]
    NoMemory,
    /// The writer failed.
    #[error("the output can't be written")]
    Output,
}

impl From<AllocError> for CheckFault {
    fn from(_error: AllocError) -> CheckFault {
        CheckFault::NoMemory
    }
}

/// Looks at definitions, and at a script if there is one, and writes what they define and their first faults.
///
/// # Errors
///
/// [`CheckFault::NoMemory`], and then nothing was written; [`CheckFault::Output`] at the first fault of the writer.
pub fn check_into<W: Write>(
    alloc: Global,
    defs: NamedText,
    script: Option<NamedText>,
    style: Style,
    out: &mut W,
) -> Result<Health, CheckFault> {
    let mut shown = String::new(alloc);
    let health = check(alloc, Texts { defs, script }, style, &mut shown)?;
    write_all(shown.as_str(), out)?;
    Ok(health)
}

/// Puts what is found in two texts behind a text.
fn check(
    alloc: Global,
    texts: Texts,
    style: Style,
    shown: &mut String,
) -> Result<Health, AllocError> {
    let mut found = Examination::new(alloc);
    examine_and_show(alloc, texts, style, &mut found, shown)
}

fn examine_and_show(
    alloc: Global,
    texts: Texts,
    style: Style,
    found: &mut Examination,
    shown: &mut String,
) -> Result<Health, AllocError> {
    examine(alloc, texts, found)?;
    match style {
        Style::Text(colour) => show(alloc, texts, found, colour, shown)?,
        Style::Json => push_object(alloc, texts, found, shown)?,
    }
    if found.faults.is_empty() {
        Ok(Health::Well)
    } else {
        Ok(Health::Faulty)
    }
}

/// Writes a text, and flushes the writer.
fn write_all<W: Write>(text: &str, out: &mut W) -> Result<(), CheckFault> {
    if out.write_all(text.as_bytes()).is_err() || out.flush().is_err() {
        return Err(CheckFault::Output);
    }
    Ok(())
}

/// Draws the fault for which a text was refused by a run of both, for a terminal; nothing where the refusal says
/// nothing of the text.
///
/// # Errors
///
/// Where there is no memory for it. A part may be drawn.
// (what was refused and why, and how and where it is drawn)
pub fn draw_refused(
    alloc: Global,
    which: Which,
    text: NamedText,
    refusal: &Refusal,
    colour: Colour,
    drawn: &mut String,
) -> Result<(), AllocError> {
    if let (Which::Defs, Refusal::FalseAtCreation { .. }) = (which, refusal) {
        return draw_false(alloc, text, colour, drawn);
    }
    let mut fault = Diagnosis::new(alloc, which);
    if diagnose_refusal(alloc, text.bytes, refusal, &mut fault)? {
        draw(text, &fault, colour, drawn)?;
    }
    Ok(())
}

/// Draws the first fault of definitions that are refused once their rows are put in.
fn draw_false(
    alloc: Global,
    text: NamedText,
    colour: Colour,
    drawn: &mut String,
) -> Result<(), AllocError> {
    let mut found = Examination::new(alloc);
    draw_first(alloc, text, colour, &mut found, drawn)
}

fn draw_first(
    alloc: Global,
    text: NamedText,
    colour: Colour,
    found: &mut Examination,
    drawn: &mut String,
) -> Result<(), AllocError> {
    examine_definitions(alloc, text.bytes, found)?;
    match found.faults.first() {
        Some(fault) => draw(text, fault, colour, drawn),
        None => Ok(()),
    }
}

/// Says why a text was refused, if the refusal says something of it.
fn diagnose_refusal(
    alloc: Global,
    bytes: &[u8],
    refusal: &Refusal,
    fault: &mut Diagnosis,
) -> Result<bool, AllocError> {
    match (fault.which, refusal) {
        (_, Refusal::NoMemory) => Ok(false),
        (_, Refusal::Syntax { .. } | Refusal::TooDeep { .. }) => {
            diagnose_grammar(alloc, bytes, refusal, fault)
        }
        (Which::Script, _) => Ok(false),
        (Which::Defs, _) => diagnose_schema(alloc, bytes, refusal, fault),
    }
}

/// Says why definitions that are of the language were refused.
fn diagnose_schema(
    alloc: Global,
    bytes: &[u8],
    refusal: &Refusal,
    fault: &mut Diagnosis,
) -> Result<bool, AllocError> {
    match parse_schema(alloc, bytes) {
        Ok(definitions) => {
            let definitions = definitions.as_slice();
            let text = DefinitionsText { bytes, definitions };
            diagnose_definitions(alloc, text, refusal, fault)?;
            Ok(true)
        }
        Err(_) => Ok(false),
    }
}
