//! What is wrong with a text.

use crate::expected::Which;
use crate::places::Span;
use std::alloc::{AllocError, Global};
use value::Refusal;

/// Where a fault is.
#[derive(Clone, Copy, Debug, PartialEq, Eq)]
pub enum At {
    /// At these bytes.
    Bytes(Span),
    /// Somewhere in this definition or line of a script.
    Definition(Span),
    /// Nowhere in the text.
    Nowhere,
}

/// What is wrong with a text, where, and what to do about it.
#[derive(Drop)]
pub struct Diagnosis {
    pub which: Which,
    /// The fault's number, as in a report.
    pub number: u8,
    /// What is wrong, in a few words.
    pub what: String,
    pub at: At,
    /// What may stand there, or how to say it: lines of a sentence or two each.
    pub advice: String,
}

impl Diagnosis {
    /// Of this text, of which nothing is said yet.
    pub fn new(alloc: Global, which: Which) -> Diagnosis {
        Diagnosis {
            which,
            number: 0,
            what: String::new(alloc),
            at: At::Nowhere,
            advice: String::new(alloc),
        }
    }

    /// Says which fault it is, and where.
    pub fn place(&mut self, number: u8, at: At) {
        self.number = number;
        self.at = at;
    }

    /// Says what is wrong.
    pub fn say(&mut self, what: &str) -> Result<(), AllocError> {
        self.what.push_str(what)
    }

    /// Adds a line of advice.
    pub fn advise(&mut self, sentence: &str) -> Result<(), AllocError> {
        self.advice.push_str(sentence)?;
        self.advice.push_str("\n")
    }
}

/// The number of a refusal, as in a report.
pub fn number_of(refusal: &Refusal) -> u8 {
    match refusal {
        Refusal::NoMemory => 1,
        Refusal::Syntax { .. } => 2,
        Refusal::UnknownName { .. } => 3,
        Refusal::NameTaken { .. } => 4,
        Refusal::TypeMismatch => 5,
        Refusal::NullNotAllowed { .. } => 6,
        Refusal::DuplicateKey { .. } => 7,
        Refusal::KeyUpdate { .. } => 8,
        Refusal::OutOfRange { .. } => 9,
        Refusal::Violated { .. } => 10,
        Refusal::NotDeferrable { .. } => 11,
        Refusal::WriteConflict { .. } => 12,
        Refusal::Dangerous { .. } => 13,
        Refusal::NoTransaction => 14,
        Refusal::TransactionOpen => 15,
        Refusal::Stranger => 16,
        Refusal::EpochFull => 17,
        Refusal::TooWide => 18,
        Refusal::TooDeep { .. } => 19,
        Refusal::OutsideClass => 20,
        Refusal::FalseAtCreation { .. } => 21,
        Refusal::AttributeClash { .. } => 22,
        Refusal::ReadOnlyTransaction => 23,
        Refusal::TooManySessions => 24,
    }
}
