//! Elements of SVG 1.1, put behind one another.

use printout::Printout;
use std::alloc::{AllocError, Global};
use unicode_width::{UnicodeWidthChar, UnicodeWidthStr};

/// How a text stands at its point.
#[derive(Clone, Copy, Debug, PartialEq, Eq)]
pub enum Anchor {
    Start,
    Middle,
}

/// A point, from the left and from the top.
#[derive(Clone, Copy, Debug)]
pub struct Point {
    pub x: u32,
    pub y: u32,
}

/// A rectangle by its corner and its size.
#[derive(Clone, Copy, Debug)]
pub struct Area {
    pub x: u32,
    pub y: u32,
    pub width: u32,
    pub height: u32,
}

/// The elements so far, and the text of the next one. A text is put together first, and then cut and escaped. One that
/// found no memory stays, and takes no more: so want of memory is noted as a [`Printout`] notes it.
#[derive(Drop)]
pub struct Canvas {
    pub svg: Printout,
    pub text: Printout,
}

impl Canvas {
    /// No element, and no text.
    pub fn new(alloc: Global) -> Canvas {
        Canvas {
            svg: Printout::new(alloc),
            text: Printout::new(alloc),
        }
    }

    /// The elements.
    ///
    /// # Errors
    ///
    /// Where an element or a text found no memory.
    pub fn elements(&self) -> Result<&str, AllocError> {
        self.text.text()?;
        self.svg.text()
    }

    /// Adds the text as an element at a point, of so many columns at most, with these attributes beside its place.
    pub fn add_text(&mut self, point: Point, anchor: Anchor, attributes: &[&str], most: usize) {
        self.svg.add("<text");
        self.add_sizes(&[("x", point.x), ("y", point.y)]);
        self.add_attributes(attributes);
        if anchor == Anchor::Middle {
            self.svg.add(" text-anchor=\"middle\"");
        }
        self.svg.add(">");
        self.move_text(most);
        self.svg.add("</text>\n");
    }

    /// Adds a rectangle with these attributes.
    pub fn add_area(&mut self, area: Area, attributes: &[&str]) {
        self.svg.add("<rect");
        self.add_sizes(&[
            ("x", area.x),
            ("y", area.y),
            ("width", area.width),
            ("height", area.height),
        ]);
        self.add_attributes(attributes);
        self.svg.add("/>\n");
    }

    /// Adds the text as what a pointer shows over an element.
    pub fn add_title(&mut self) {
        self.svg.add("<title>");
        self.move_text(usize::MAX);
        self.svg.add("</title>\n");
    }

    /// Adds attributes whose values are numbers, each behind a space.
    fn add_sizes(&mut self, sizes: &[(&str, u32)]) {
        for (name, size) in sizes {
            self.svg.add_all(&[" ", name, "=\""]);
            self.svg.show(*size);
            self.svg.add("\"");
        }
    }

    /// Adds attributes, each behind a space.
    fn add_attributes(&mut self, attributes: &[&str]) {
        for attribute in attributes {
            self.svg.add_all(&[" ", attribute]);
        }
    }

    /// Adds the text, cut after so many columns and escaped, and empties it.
    fn move_text(&mut self, most: usize) {
        if let Ok(text) = self.text.text() {
            add_cut(text, most, &mut self.svg);
            self.text.clear();
        }
    }
}

/// Adds a text, escaped. Of one with more columns than these the first ones are added, and two dots.
fn add_cut(text: &str, most: usize, svg: &mut Printout) {
    let is_whole = text.width() <= most;
    let room = if is_whole {
        usize::MAX
    } else {
        most.saturating_sub(2)
    };
    let mut columns = 0usize;
    for character in text.chars() {
        // (one that has no width is shown as a question mark)
        columns = columns.saturating_add(character.width().unwrap_or(1));
        if columns > room {
            break;
        }
        add_escaped(character, svg);
    }
    svg.add(if is_whole { "" } else { ".." });
}

/// Adds a character, escaped where it has a meaning in XML. A control character, or one that XML has not, becomes a
/// question mark.
fn add_escaped(character: char, svg: &mut Printout) {
    match character {
        '&' => svg.add("&amp;"),
        '<' => svg.add("&lt;"),
        '>' => svg.add("&gt;"),
        '"' => svg.add("&quot;"),
        '\u{fffe}' | '\u{ffff}' => svg.add("?"),
        other if other.is_control() => svg.add("?"),
        other => svg.add_character(other),
    }
}
