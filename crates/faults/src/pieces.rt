//! The tokens of one definition or line of a script, and which of them are the leaves of its tree.
//!
//! Trees keep no places. What stands at a part of a tree is found by counting: some kinds of tokens, the *leaves*,
//! stand in the text in the order in which the tree has them, each once. They are names, numbers and texts, the words
//! COUNT, SUM, MIN, MAX, SELECT and EXISTS, and the comparisons. So the leaf at some place of a tree is the token at
//! the same place among the leaves of its text.

use crate::places::{Span, between};
use std::alloc::{AllocError, Global};
use token::{Kind, Token, read_tokens};

/// One definition or line of a script: its text, all of its tokens without the semicolon, and its leaves.
#[derive(Drop)]
pub struct Piece<'a> {
    pub text: &'a [u8],
    pub tokens: Vec<Token>,
    pub leaves: Vec<Token>,
}

impl<'a> Piece<'a> {
    /// The definition or line of a script at a place of a text, from 0.
    pub fn at(alloc: Global, text: &'a [u8], place: usize) -> Result<Piece<'a>, AllocError> {
        let all = read_tokens(alloc, text)?;
        let mut tokens = Vec::new(alloc);
        let mut leaves = Vec::new(alloc);
        let mut found = 0usize;
        for token in &all {
            if token.kind == Kind::Semicolon {
                found = found.saturating_add(1);
            } else if found == place {
                tokens.push(*token)?;
                if is_leaf(token.kind) {
                    leaves.push(*token)?;
                }
            }
        }
        Ok(Piece {
            text,
            tokens,
            leaves,
        })
    }

    /// All of it.
    pub fn whole(&self) -> Span {
        span_of(&self.tokens).unwrap_or(Span { start: 0, end: 0 })
    }

    /// From the leaf at one place up to that before another, with the parentheses that open or close among them.
    pub fn leaves_from(&self, from: usize, to: usize) -> Option<Span> {
        let first = self.leaves.get(from)?;
        let last = self.leaves.get(to.saturating_sub(1))?;
        let span = Span {
            start: first.start,
            end: last.end.max(first.end),
        };
        Some(self.with_parentheses(self.with_star(span, last.kind)))
    }

    /// With the parentheses of COUNT(*), if COUNT is the last token. (No leaf stands in them.)
    fn with_star(&self, span: Span, last: Kind) -> Span {
        let mut behind = self
            .tokens
            .iter()
            .skip_while(|token| token.start < span.end);
        match (last, behind.next(), behind.next(), behind.next()) {
            (Kind::Count, Some(_), Some(star), Some(close)) if star.kind == Kind::Star => Span {
                start: span.start,
                end: close.end,
            },
            _ => span,
        }
    }

    /// With the parentheses around it that have their other ends in it.
    fn with_parentheses(&self, span: Span) -> Span {
        let (opened, closed) = self.unmatched(span);
        let before = self
            .tokens
            .iter()
            .rev()
            .skip_while(|token| token.start >= span.start);
        let behind = self
            .tokens
            .iter()
            .skip_while(|token| token.start < span.end);
        let mut start = span.start;
        for token in before
            .take(closed)
            .take_while(|token| token.kind == Kind::Open)
        {
            start = token.start;
        }
        let mut end = span.end;
        for token in behind
            .take(opened)
            .take_while(|token| token.kind == Kind::Close)
        {
            end = token.end;
        }
        Span { start, end }
    }

    /// How many parentheses open in a span and do not close there, and how many close that do not open there.
    fn unmatched(&self, span: Span) -> (usize, usize) {
        let (mut opened, mut closed) = (0usize, 0usize);
        for token in &self.tokens {
            if span.start <= token.start && token.start < span.end {
                match token.kind {
                    Kind::Open => opened = opened.saturating_add(1),
                    Kind::Close if opened == 0 => closed = closed.saturating_add(1),
                    Kind::Close => opened = opened.saturating_sub(1),
                    _ => {}
                }
            }
        }
        (opened, closed)
    }

    /// The leaf at a place.
    pub fn leaf(&self, place: usize) -> Option<Span> {
        self.leaves_from(place, place.saturating_add(1))
    }

    /// The token of a kind before which so many others of that kind stand.
    pub fn token(&self, kind: Kind, place: usize) -> Option<Span> {
        let mut left = place;
        for token in &self.tokens {
            if token.kind == kind {
                if left == 0 {
                    return Some(Span {
                        start: token.start,
                        end: token.end,
                    });
                }
                left = left.saturating_sub(1);
            }
        }
        None
    }

    /// The value at a place of a row behind VALUES, its sign with it.
    pub fn value(&self, row: usize, place: usize) -> Option<Span> {
        let mut parts = self.row(row)?.split(|token| token.kind == Kind::Comma);
        span_of(parts.nth(place)?)
    }

    /// The tokens in the parentheses of a row behind VALUES.
    fn row(&self, row: usize) -> Option<&[Token]> {
        let mut tokens = self.tokens.iter();
        let values = tokens.position(|token| token.kind == Kind::Values)?;
        let list = self.tokens.get(values.saturating_add(1)..)?;
        let within = list.split(|token| token.kind == Kind::Close).nth(row)?;
        // (before the parenthesis of each row but the first stands a comma)
        let open = within.iter().position(|token| token.kind == Kind::Open)?;
        within.get(open.saturating_add(1)..)
    }

    /// The bytes of a span.
    pub fn bytes(&self, span: Span) -> &'a [u8] {
        between(self.text, span.start, span.end)
    }
}

/// From the first token to the last.
fn span_of(tokens: &[Token]) -> Option<Span> {
    let first = tokens.first()?;
    let last = tokens.last()?;
    Some(Span {
        start: first.start,
        end: last.end,
    })
}

/// Whether a token is a leaf of the trees.
fn is_leaf(kind: Kind) -> bool {
    matches!(
        kind,
        Kind::Name
            | Kind::Number
            | Kind::Text
            | Kind::Count
            | Kind::Sum
            | Kind::Min
            | Kind::Max
            | Kind::Select
            | Kind::Exists
            | Kind::Equal
            | Kind::NotEqual
            | Kind::Less
            | Kind::AtMost
            | Kind::Greater
            | Kind::AtLeast
    )
}
