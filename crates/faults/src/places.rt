//! Places in texts.

use std::alloc::AllocError;
use unicode_width::{UnicodeWidthChar, UnicodeWidthStr};

/// Bytes of a text, from `start` up to `end`, which is not its own.
#[derive(Clone, Copy, Debug, PartialEq, Eq)]
pub struct Span {
    pub start: usize,
    pub end: usize,
}

/// Where a byte stands: its line and its column, both from 1, and where its line begins and ends. Columns are those
/// that the line takes as it is shown: two of a wide character, and none of one that combines with another.
#[derive(Clone, Copy, Debug, PartialEq, Eq)]
pub struct Place {
    pub line: usize,
    pub column: usize,
    pub start: usize,
    pub end: usize,
}

/// The bytes of a text from an offset on.
pub fn bytes_from(text: &[u8], start: usize) -> &[u8] {
    text.get(start..).unwrap_or(&[])
}

/// The bytes of a text between two offsets.
pub fn between(text: &[u8], start: usize, end: usize) -> &[u8] {
    text.get(start..end).unwrap_or(&[])
}

/// Where a byte stands. Past the end it is the end.
pub fn place_of(text: &[u8], at: usize) -> Place {
    let before = between(text, 0, at.min(text.len()));
    let mut line = 1usize;
    let mut start = 0usize;
    for (place, byte) in before.iter().enumerate() {
        if *byte == b'\n' {
            line = line.saturating_add(1);
            start = place.saturating_add(1);
        }
    }
    Place {
        line,
        column: width(bytes_from(before, start)).saturating_add(1),
        start,
        end: start.saturating_add(line_length(bytes_from(text, start))),
    }
}

/// How many bytes there are before the end of the line.
fn line_length(text: &[u8]) -> usize {
    text.iter()
        .position(|byte| *byte == b'\n' || *byte == b'\r')
        .unwrap_or(text.len())
}

/// Bytes as a person can look at them: each that is of no text shows as a dot, and a tab as a space.
pub fn push_printable(bytes: &[u8], shown: &mut String) -> Result<(), AllocError> {
    for chunk in bytes.utf8_chunks() {
        push_letters(chunk.valid(), shown)?;
        push_dots(chunk.invalid().len(), shown)?;
    }
    Ok(())
}

fn push_letters(text: &str, shown: &mut String) -> Result<(), AllocError> {
    for letter in text.chars() {
        shown.push(if letter.is_control() { ' ' } else { letter })?;
    }
    Ok(())
}

fn push_dots(count: usize, shown: &mut String) -> Result<(), AllocError> {
    for _ in 0..count {
        shown.push('.')?;
    }
    Ok(())
}

/// How many columns bytes take as they are shown.
pub fn width(bytes: &[u8]) -> usize {
    let mut columns = 0usize;
    for chunk in bytes.utf8_chunks() {
        columns = columns
            .saturating_add(chunk.valid().width())
            .saturating_add(chunk.invalid().len());
    }
    columns
}

/// How many bytes are shown in at most so many columns. They end where a character does.
pub fn bytes_within(bytes: &[u8], columns: usize) -> usize {
    let mut left = columns;
    let mut taken = 0usize;
    for chunk in bytes.utf8_chunks() {
        let text = letters_within(chunk.valid(), left);
        taken = taken.saturating_add(text);
        if text < chunk.valid().len() {
            return taken;
        }
        left = left.saturating_sub(chunk.valid().width());
        let dots = chunk.invalid().len();
        if dots > left {
            return taken.saturating_add(left);
        }
        left = left.saturating_sub(dots);
        taken = taken.saturating_add(dots);
    }
    taken
}

/// How many bytes of a text are shown in at most so many columns, up to the end of a character.
fn letters_within(text: &str, columns: usize) -> usize {
    let mut left = columns;
    let mut taken = 0usize;
    for letter in text.chars() {
        // (one that has no width is shown as a space)
        let wide = letter.width().unwrap_or(1);
        if wide > left {
            return taken;
        }
        left = left.saturating_sub(wide);
        taken = taken.saturating_add(letter.len_utf8());
    }
    taken
}
