//! A fault as a person sees it: what is wrong, the line with a caret under the byte, and what to do.

use crate::diagnoses::{At, Diagnosis};
use crate::places::{Place, Span, between, bytes_within, place_of, push_printable, width};
use std::alloc::AllocError;

/// How a picture is coloured.
#[derive(Clone, Copy, Debug, PartialEq, Eq)]
pub enum Colour {
    Plain,
    /// By the escapes of terminals (ECMA-48, select graphic rendition).
    Terminal,
}

impl Colour {
    /// What begins bold red, for what is wrong.
    pub fn red(self) -> &'static str {
        self.escape("\x1b[1;31m")
    }

    /// What begins blue, for lines and numbers.
    pub fn blue(self) -> &'static str {
        self.escape("\x1b[1;34m")
    }

    /// What begins green, for what is well.
    pub fn green(self) -> &'static str {
        self.escape("\x1b[1;32m")
    }

    /// What begins bold.
    pub fn bold(self) -> &'static str {
        self.escape("\x1b[1m")
    }

    /// What ends a colour.
    pub fn end(self) -> &'static str {
        self.escape("\x1b[0m")
    }

    fn escape(self, escape: &'static str) -> &'static str {
        match self {
            Colour::Plain => "",
            Colour::Terminal => escape,
        }
    }
}

/// In so many columns a line is shown before the byte in question, and in so many from it on. (A wide character that
/// begins before the first of them is shown too.)
const BEFORE: usize = 60;

const BEHIND: usize = 60;

/// At most so many lines of a definition are shown.
const LINES: usize = 6;

/// A text with the name that it is shown by.
#[derive(Clone, Copy)]
pub struct NamedText<'a> {
    pub name: &'a str,
    pub bytes: &'a [u8],
}

/// Draws the picture of a fault in a text.
pub fn draw(
    text: NamedText,
    diagnosis: &Diagnosis,
    colour: Colour,
    shown: &mut String,
) -> Result<(), AllocError> {
    draw_what(diagnosis, colour, shown)?;
    match diagnosis.at {
        At::Bytes(span) => draw_line(text, span, colour, shown)?,
        At::Definition(span) => draw_definition(text, span, colour, shown)?,
        At::Nowhere => draw_name(text.name, colour, shown)?,
    }
    draw_advice(diagnosis.advice.as_str(), colour, shown)
}

/// The fault's number, and what is wrong.
fn draw_what(diagnosis: &Diagnosis, colour: Colour, shown: &mut String) -> Result<(), AllocError> {
    let (red, bold, end) = (colour.red(), colour.bold(), colour.end());
    let number = diagnosis.number;
    let what = diagnosis.what.as_str();
    writeln!(shown, "{red}fault {number}{end}{bold}: {what}{end}")
}

fn draw_advice(advice: &str, colour: Colour, shown: &mut String) -> Result<(), AllocError> {
    let (blue, end) = (colour.blue(), colour.end());
    for line in advice.lines() {
        writeln!(shown, "  {blue}={end} {line}")?;
    }
    Ok(())
}

/// The name of a text in which no place is shown.
fn draw_name(name: &str, colour: Colour, shown: &mut String) -> Result<(), AllocError> {
    let (blue, end) = (colour.blue(), colour.end());
    writeln!(shown, "  {blue}-->{end} {name}")
}

/// The name of the text, and where.
fn draw_place(
    name: &str,
    place: Place,
    colour: Colour,
    shown: &mut String,
) -> Result<(), AllocError> {
    let (blue, end) = (colour.blue(), colour.end());
    let line = place.line;
    let column = place.column;
    writeln!(shown, "  {blue}-->{end} {name}:{line}:{column}")
}

/// What stands before a line without a number, where the numbers of lines have so many digits.
fn draw_margin(digits: usize, colour: Colour, shown: &mut String) -> Result<(), AllocError> {
    let (blue, end) = (colour.blue(), colour.end());
    push_repeated(' ', digits.saturating_add(2), shown)?;
    write!(shown, "{blue}|{end}")
}

/// How many digits a number has.
fn digits_of(number: usize) -> usize {
    match number.checked_ilog10() {
        Some(power) => (power as usize).saturating_add(1),
        None => 1,
    }
}

fn push_repeated(letter: char, count: usize, shown: &mut String) -> Result<(), AllocError> {
    for _ in 0..count.min(400) {
        shown.push(letter)?;
    }
    Ok(())
}

/// What is shown of a line with the bytes in question: all of it, or of a long one what is near.
#[derive(Clone, Copy)]
struct Window<'a> {
    line: &'a [u8],
    /// What is shown before the bytes in question, and those of them that are shown.
    before: &'a [u8],
    marked: &'a [u8],
    /// What stands for the bytes that are not shown.
    cut_before: &'static str,
    cut_behind: &'static str,
}

impl<'a> Window<'a> {
    fn new(bytes: &'a [u8], place: Place, span: Span) -> Window<'a> {
        let (from, to) = window_ends(bytes, place, span);
        Window {
            line: between(bytes, from, to),
            before: between(bytes, from, span.start),
            marked: between(bytes, span.start, span.end.min(to)),
            cut_before: if from > place.start { ".." } else { "" },
            cut_behind: if to < place.end { ".." } else { "" },
        }
    }
}

/// Where what is shown of a line begins and ends.
fn window_ends(bytes: &[u8], place: Place, span: Span) -> (usize, usize) {
    if width(between(bytes, place.start, place.end)) <= BEFORE + BEHIND {
        return (place.start, place.end.max(span.start));
    }
    let before = between(bytes, place.start, span.start);
    let left_out = bytes_within(before, width(before).saturating_sub(BEFORE));
    let behind = bytes_within(between(bytes, span.start, place.end), BEHIND);
    (
        place.start.saturating_add(left_out),
        span.start.saturating_add(behind),
    )
}

/// The line of some bytes, with carets under them.
fn draw_line(
    text: NamedText,
    span: Span,
    colour: Colour,
    shown: &mut String,
) -> Result<(), AllocError> {
    let place = place_of(text.bytes, span.start);
    let digits = digits_of(place.line);
    let window = Window::new(text.bytes, place, span);
    draw_place(text.name, place, colour, shown)?;
    draw_margin(digits, colour, shown)?;
    shown.push_str("\n")?;
    draw_window(&window, place.line, colour, shown)?;
    draw_margin(digits, colour, shown)?;
    draw_carets(&window, colour, shown)
}

fn draw_window(
    window: &Window,
    number: usize,
    colour: Colour,
    shown: &mut String,
) -> Result<(), AllocError> {
    let (blue, end) = (colour.blue(), colour.end());
    write!(shown, " {blue}{number} |{end} ")?;
    shown.push_str(window.cut_before)?;
    push_printable(window.line, shown)?;
    shown.push_str(window.cut_behind)?;
    shown.push_str("\n")
}

fn draw_carets(window: &Window, colour: Colour, shown: &mut String) -> Result<(), AllocError> {
    let column = width(window.before).saturating_add(window.cut_before.len());
    let carets = width(window.marked).max(1);
    shown.push_str(" ")?;
    push_repeated(' ', column, shown)?;
    shown.push_str(colour.red())?;
    push_repeated('^', carets, shown)?;
    shown.push_str(colour.end())?;
    shown.push_str("\n")
}

/// The lines of a definition in which the place is not known.
fn draw_definition(
    text: NamedText,
    span: Span,
    colour: Colour,
    shown: &mut String,
) -> Result<(), AllocError> {
    let first = place_of(text.bytes, span.start);
    let last = place_of(text.bytes, span.end.saturating_sub(1).max(span.start));
    let digits = digits_of(last.line);
    draw_place(text.name, first, colour, shown)?;
    draw_margin(digits, colour, shown)?;
    shown.push_str("\n")?;
    let lines = between(text.bytes, first.start, last.end);
    draw_lines(lines, first.line, digits, colour, shown)?;
    if last.line.saturating_sub(first.line) < LINES {
        return Ok(());
    }
    draw_margin(digits, colour, shown)?;
    shown.push_str(" ..\n")
}

/// The first lines of some bytes with their numbers, which have at most so many digits.
fn draw_lines(
    bytes: &[u8],
    first: usize,
    digits: usize,
    colour: Colour,
    shown: &mut String,
) -> Result<(), AllocError> {
    let (blue, end) = (colour.blue(), colour.end());
    let mut number = first;
    for line in bytes.split(|byte| *byte == b'\n').take(LINES) {
        write!(shown, " {blue}{number:>digits$} |{end} ")?;
        push_cut(line, shown)?;
        number = number.saturating_add(1);
    }
    Ok(())
}

/// A line, cut where it is long.
fn push_cut(line: &[u8], shown: &mut String) -> Result<(), AllocError> {
    let cut = between(line, 0, bytes_within(line, BEFORE + BEHIND));
    push_printable(cut, shown)?;
    shown.push_str(if cut.len() < line.len() { "..\n" } else { "\n" })
}
