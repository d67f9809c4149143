//! A text that people read, as it is put together.
//!
//! Nothing can go wrong with such a text but that memory ends. So a [`Printout`] notes that, and takes no more from
//! then on; whoever hands the text on asks once, by [`Printout::text`] or [`Printout::write_into`].
#![tactic(auto)]

use std::alloc::{AllocError, Global};
use std::fmt::Display;
use std::io::Write;
use table::Aggregate;
use thiserror::Error;
use value::{Comparison, Text};

/// Why a text was not written.
#[derive(Debug, Drop, Error)]
pub enum Unwritten {
    /// A piece of it found no memory. Nothing of it was written.
    #[error("no memory is left")]
    NoMemory,
    /// The writer failed. Of the bytes that went out before nothing is known.
    #[error("the output can't be written")]
    Output,
}

impl From<AllocError> for Unwritten {
    fn from(_error: AllocError) -> Unwritten {
        Unwritten::NoMemory
    }
}

/// A text to which pieces are added behind one another.
#[derive(Drop)]
pub struct Printout {
    text: String,
    is_whole: bool,
}

impl Printout {
    /// An empty text.
    pub fn new(alloc: Global) -> Printout {
        Printout {
            text: String::new(alloc),
            is_whole: true,
        }
    }

    /// Adds a piece.
    pub fn add(&mut self, piece: &str) {
        if self.is_whole && self.text.push_str(piece).is_err() {
            self.is_whole = false;
        }
    }

    /// Adds pieces, one behind the other.
    pub fn add_all(&mut self, pieces: &[&str]) {
        for piece in pieces {
            self.add(piece);
        }
    }

    /// Adds bytes, each as the character of its number.
    pub fn add_bytes(&mut self, bytes: &[u8]) {
        for byte in bytes {
            self.add_character(char::from(*byte));
        }
    }

    /// Adds a character.
    pub fn add_character(&mut self, character: char) {
        if self.is_whole && self.text.push(character).is_err() {
            self.is_whole = false;
        }
    }

    /// Adds what a value shows of itself.
    pub fn show<D: Display + Copy>(&mut self, value: D) {
        if self.is_whole && write!(self.text, "{value}").is_err() {
            self.is_whole = false;
        }
    }

    /// Adds what values show of themselves: `front` and the first, and each other one behind `between`.
    pub fn show_list<D: Display>(&mut self, front: &str, values: &[D], between: &str) {
        let mut before = front;
        for value in values {
            self.add(before);
            self.show(value);
            before = between;
        }
    }

    /// Adds a name in double quotes, in which SQL takes it byte by byte and never for a reserved word. It holds no
    /// quote itself: the names of the language are letters, digits and `_`.
    pub fn add_name(&mut self, name: &Text) {
        self.add("\"");
        self.show(name);
        self.add("\"");
    }

    /// The whole text.
    ///
    /// # Errors
    ///
    /// Where a piece found no memory. The text is as it was.
    pub fn text(&self) -> Result<&str, AllocError> {
        if self.is_whole {
            Ok(self.text.as_str())
        } else {
            Err(AllocError)
        }
    }

    /// Empties the text, which is whole then.
    pub fn clear(&mut self) {
        self.text.clear();
        self.is_whole = true;
    }

    /// Writes the whole text, and empties it.
    ///
    /// # Errors
    ///
    /// Why it was not written. The text is as it was.
    pub fn write_into<W: Write>(&mut self, out: &mut W) -> Result<(), Unwritten> {
        let text = self.text()?;
        if out.write_all(text.as_bytes()).is_err() {
            return Err(Unwritten::Output);
        }
        self.clear();
        Ok(())
    }

    /// Writes the whole text as the last one, and flushes the writer.
    ///
    /// # Errors
    ///
    /// As those of [`Printout::write_into`].
    pub fn finish_into<W: Write>(&mut self, out: &mut W) -> Result<(), Unwritten> {
        self.write_into(out)?;
        match out.flush() {
            Ok(()) => Ok(()),
            Err(_) => Err(Unwritten::Output),
        }
    }
}

/// A comparison as SQL writes it.
pub fn sign_of(comparison: Comparison) -> &'static str {
    match comparison {
        Comparison::Equal => "=",
        Comparison::NotEqual => "<>",
        Comparison::Less => "<",
        Comparison::AtMost => "<=",
        Comparison::Greater => ">",
        Comparison::AtLeast => ">=",
    }
}

/// A set function as SQL writes it, up to its column; COUNT(*) up to its end.
pub fn opening_of(function: Aggregate) -> &'static str {
    match function {
        Aggregate::CountRows => "COUNT(*",
        Aggregate::Count(_) => "COUNT(",
        Aggregate::CountDistinct(_) => "COUNT(DISTINCT ",
        Aggregate::Sum(_) => "SUM(",
        Aggregate::SumDistinct(_) => "SUM(DISTINCT ",
        Aggregate::Min(_) => "MIN(",
        Aggregate::Max(_) => "MAX(",
    }
}
