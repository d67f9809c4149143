//! Where a token stands in its text.

use crate::kinds::Kind;

/// A token: its kind, and where its bytes stand, from `start` up to `end`, which is not its own.
#[derive(Clone, Copy, Debug, PartialEq, Eq)]
pub struct Token {
    pub kind: Kind,
    pub start: usize,
    pub end: usize,
}
