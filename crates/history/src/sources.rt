//! The texts of events and definitions, found again.

use crate::words::add_bytes;
use printout::Printout;
use std::alloc::{AllocError, Global};
use token::{Kind, Token, read_tokens};

/// A text of pieces that end with a semicolon, as definitions and scripts are, by its tokens.
#[derive(Drop)]
pub struct Source<'a> {
    text: &'a [u8],
    tokens: Vec<Token>,
    /// For each piece its first token, and the semicolon that ends it.
    pieces: Vec<(usize, usize)>,
    /// For each assertion, in the order of creation, the first token of its text and the one behind it.
    rules: Vec<(usize, usize)>,
}

impl<'a> Source<'a> {
    /// A text that was not read yet: no piece of it is known.
    pub fn new(alloc: Global, text: &'a [u8]) -> Source<'a> {
        Source {
            text,
            tokens: Vec::new(alloc),
            pieces: Vec::new(alloc),
            rules: Vec::new(alloc),
        }
    }

    /// Finds the pieces, and the assertions that they create.
    ///
    /// # Errors
    ///
    /// Where there is no memory for them. Which were found is then unknown.
    pub fn read(&mut self, alloc: Global) -> Result<(), AllocError> {
        self.pieces.clear();
        self.rules.clear();
        self.tokens = read_tokens(alloc, self.text)?;
        push_pieces(self.tokens.as_slice(), &mut self.pieces)?;
        push_rules(
            self.tokens.as_slice(),
            self.pieces.as_slice(),
            &mut self.rules,
        )
    }

    /// The line on which a piece begins, from 1 upwards.
    pub fn line(&self, piece: usize) -> usize {
        match self.tokens_of(piece).first() {
            Some(token) => line_at(self.text, token.start),
            None => 0,
        }
    }

    /// The line on which the text of an assertion begins, from 1 upwards, by its place in the order of creation.
    pub fn rule_line(&self, place: usize) -> Option<usize> {
        let token = self.rule(place).first()?;
        Some(line_at(self.text, token.start))
    }

    /// Adds the text of an assertion: what creates it, or the element of CREATE TABLE in which a constraint stands.
    pub fn add_rule(&self, place: usize, out: &mut Printout) {
        add_tokens(self.rule(place), self.text, out);
    }

    /// Adds a piece without its semicolon, with one space where blanks and comments are.
    pub fn add_piece(&self, piece: usize, out: &mut Printout) {
        add_tokens(self.tokens_of(piece), self.text, out);
    }

    /// Adds an event of a script in the same way, without its session.
    pub fn add_event(&self, piece: usize, out: &mut Printout) {
        match self.tokens_of(piece) {
            [_session, _colon, event @ ..] => add_tokens(event, self.text, out),
            _ => {}
        }
    }

    /// The tokens of an assertion.
    fn rule(&self, place: usize) -> &[Token] {
        match self.rules.get(place) {
            Some((first, behind)) => self.tokens.as_slice().get(*first..*behind).unwrap_or(&[]),
            None => &[],
        }
    }

    /// The tokens of a piece.
    fn tokens_of(&self, piece: usize) -> &[Token] {
        match self.pieces.get(piece) {
            Some((first, last)) => self.tokens.as_slice().get(*first..*last).unwrap_or(&[]),
            None => &[],
        }
    }
}

/// Adds tokens, with one space where something is between them.
fn add_tokens(tokens: &[Token], text: &[u8], out: &mut Printout) {
    let mut end = None;
    for token in tokens {
        if end.is_some_and(|end| end != token.start) {
            out.add(" ");
        }
        add_bytes(text.get(token.start..token.end).unwrap_or(&[]), out);
        end = Some(token.end);
    }
}

/// Puts the pieces of some tokens behind the others.
fn push_pieces(tokens: &[Token], pieces: &mut Vec<(usize, usize)>) -> Result<(), AllocError> {
    let mut first = 0;
    for (at, token) in tokens.iter().enumerate() {
        if token.kind == Kind::Semicolon {
            pieces.push((first, at))?;
            first = at.saturating_add(1);
        }
    }
    Ok(())
}

/// Puts the texts of the assertions that some pieces create behind the others.
fn push_rules(
    tokens: &[Token],
    pieces: &[(usize, usize)],
    rules: &mut Vec<(usize, usize)>,
) -> Result<(), AllocError> {
    for (first, behind) in pieces {
        match tokens.get(*first..*behind) {
            Some([_create, of, ..]) if of.kind == Kind::Assertion => {
                rules.push((*first, *behind))?;
            }
            Some([_create, of, ..]) if of.kind == Kind::Table => {
                push_constraints(tokens, (*first, *behind), rules)?;
            }
            _ => {}
        }
    }
    Ok(())
}

/// Puts the constraints of a table behind the other rules.
fn push_constraints(
    tokens: &[Token],
    piece: (usize, usize),
    rules: &mut Vec<(usize, usize)>,
) -> Result<(), AllocError> {
    let (first, behind) = piece;
    let mut depth = 0usize;
    let mut element = first;
    let mut at = first;
    for token in tokens.get(first..behind).unwrap_or(&[]) {
        if depth == 1 && (token.kind == Kind::Comma || token.kind == Kind::Close) {
            push_constraints_of(tokens, (element, at), rules)?;
        }
        match token.kind {
            Kind::Open => depth = depth.saturating_add(1),
            Kind::Close => depth = depth.saturating_sub(1),
            _ => {}
        }
        at = at.saturating_add(1);
        if depth == 1 && (token.kind == Kind::Comma || token.kind == Kind::Open) {
            element = at;
        }
    }
    Ok(())
}

/// Puts the constraints of an element of CREATE TABLE, each with the text of the element, behind the other rules.
fn push_constraints_of(
    tokens: &[Token],
    element: (usize, usize),
    rules: &mut Vec<(usize, usize)>,
) -> Result<(), AllocError> {
    let (first, behind) = element;
    // (REFERENCES begins a constraint behind a column, and goes one on behind FOREIGN KEY)
    let mut is_foreign = false;
    for token in tokens.get(first..behind).unwrap_or(&[]) {
        match token.kind {
            Kind::Unique | Kind::Check | Kind::Foreign => rules.push(element)?,
            Kind::References if !is_foreign => rules.push(element)?,
            _ => {}
        }
        is_foreign = is_foreign || token.kind == Kind::Foreign;
    }
    Ok(())
}

/// The line of an offset, from 1 upwards.
fn line_at(text: &[u8], at: usize) -> usize {
    let before = text.get(..at).unwrap_or(text);
    let ends = before.iter().filter(|byte| **byte == b'\n').count();
    ends.saturating_add(1)
}
