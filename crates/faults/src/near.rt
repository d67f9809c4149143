//! The nearest of some words to one that was not found.

use std::alloc::{AllocError, Global};
use std::str;
use strsim::damerau_levenshtein;
use value::Text;

/// The word that was not found, and the nearest of those that were offered so far.
#[derive(Clone, Copy)]
pub struct Nearest<'a> {
    word: &'a str,
    found: Option<&'a str>,
    distance: usize,
}

impl<'a> Nearest<'a> {
    /// None was offered yet. A word is near where at most a third of its letters differ, and one more.
    pub fn new(word: &'a str) -> Nearest<'a> {
        Nearest {
            word,
            found: None,
            distance: (word.len() / 3).saturating_add(2),
        }
    }

    /// Of a name.
    pub fn of(name: &'a Text) -> Nearest<'a> {
        Nearest::new(str::from_utf8(name.as_bytes()).unwrap_or(""))
    }

    /// Offers one more word.
    pub fn offer(&mut self, alloc: Global, word: &'a str) -> Result<(), AllocError> {
        // (a table of all pairs of letters: names of the program are short)
        if word.len() > 128 {
            return Ok(());
        }
        let distance = damerau_levenshtein(alloc, self.word, word)?;
        if distance > 0 && distance < self.distance {
            self.distance = distance;
            self.found = Some(word);
        }
        Ok(())
    }

    /// Offers one more name.
    pub fn offer_name(&mut self, alloc: Global, name: &'a Text) -> Result<(), AllocError> {
        self.offer(alloc, str::from_utf8(name.as_bytes()).unwrap_or(""))
    }

    /// The nearest of them, if one is near.
    pub fn found(&self) -> Option<&'a str> {
        self.found
    }
}
