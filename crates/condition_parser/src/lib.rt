//! The parser of conditions, expressions and queries.
//!
//! A method for each rule of the grammar (crate `syntax`), and its contract is that rule's reader:
//! what it answers is what the reader answers on the tokens in front of it, unless memory runs out.
//! With the laws of the grammar this says that a tree is right, that no other is, and that a refusal
//! stands at the first token with which no text goes on.
//!
//! A parenthesis may hold a condition, an expression or a query, so the rules call one another in a
//! circle. The circle is cut where a parenthesis opens: a [`levels::Level`] knows how many more may
//! be opened, and holds the reader of what stands in one as a value, of which it knows only that it
//! reads with one parenthesis fewer (`specs/Nests.antt`). So each method is proved by itself, and a
//! single function, `read`, hands itself to its level; it ends, since the number of parentheses goes
//! down. The number is also the limit on nesting, so that the stack of the program stays bounded.
//!
//! A parenthesis where a condition is wanted is read as whatever stands in it, and what was found
//! says how the text goes on: behind a condition comes IS, AND or OR, behind an expression an
//! operator or a comparison. That is the only choice which the next token does not make.
//!
//! Conditions and queries go from rule to rule in a box, since they are large and the rules are many.
//!
//! [`parse_condition`] and [`parse_expression`] read a condition and an expression, where so many parentheses may be
//! opened.
#![tactic(auto)]

mod comparisons;
mod conditions;
mod expressions;
mod levels;
mod queries;
mod readers;

pub use readers::{parse_condition, parse_expression};
