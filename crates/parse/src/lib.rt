//! Texts and their trees: the calls by which statements, schemas and scripts come in.
//!
//! Each call takes the bytes of a text and answers with its tree, or what is made of it, or with why there is none:
//!
//! - `Syntax` names the offset of the first token that no text of the grammar has behind the tokens
//!   before it, or the text's length where it ends too early. A bad token, as a text without its
//!   end, is a token that no text has.
//! - `TooDeep` names the first parenthesis that opens while 64 are open, where the text up to and
//!   with it is the beginning of some text. (SQL-92 sets no limit; 64 is this project's choice, and
//!   bounds the stack.) Where both could be said, the earlier place is; at one place, `Syntax`.
//! - `NoMemory` comes where memory runs out, and says nothing of the text.
//!
//! That is what the contracts promise, in three clauses of the same form for events
//! ([`parse_statement`]), lists of definitions ([`parse_schema`]) and scripts ([`parse_script`]).
//! `found`: a tree that is given is one that the written grammar relates to the tokens of the text.
//! `only`: where the grammar has a tree, and no parenthesis opens while 64 are open, that tree is
//! given, unless memory runs out. `refused`: a refusal says of the text what it says above
//! (`specs/Told.antt`, over `IsWrong` and `IsTooDeep` of the crate `syntax`). With the laws of the
//! crate `syntax`, that no text has two trees, the answer to each text is settled.
//!
//! Definitions need not be kept as trees: [`parse_schema_into`] puts each into a `Collection` (crate `leaf_parser`) as
//! soon as it is read, and promises the same of what comes of it.
//!
//! Tokens are cut by `token`, and the grammar speaks of all tokens of a text (`lexemes`). The
//! parsers of the crates below answer as the grammar's readers do; here a reader is run on a whole
//! text, and the laws of `syntax` turn its outcome into the three clauses (`proofs/Telling.antt`).
//!
//! # Statements, events, definitions and scripts
//!
//! A function for each rule of the grammar (crate `syntax`), and its contract is that
//! rule's reader: what it answers is what the reader answers on the tokens in front of it, unless
//! memory runs out (`Reads`, in crate `leaf_parser`). Each goes by the next token alone. Conditions
//! and expressions are read by the crate `condition_parser`.
//!
//! A function that may meet a parenthesis takes how many may be opened where it begins. Each `(`
//! counts: those round lists of names, constants and columns, of VARCHAR and of CHECK too. Where none
//! may be opened, a `(` stops the parser by `Stop::Depth`, and any other token by `Stop::Syntax`.
//!
//! Lists, loops and parentheses are those of `leaf_parser`: what stands in them is a `Part` here. A loop
//! goes on by the kind of the next token, a comma, or the first word of a definition, or a name for a
//! line of a script.
//!
//! [`collect_definitions`], [`parse_event`] and [`parse_script`] are for the layer that reads whole texts: none of them
//! asks whether anything stands behind what it has read.
#![tactic(auto)]

mod attributes;
mod calls;
mod columns;
mod constraints;
mod events;
mod inserts;
mod schemas;
mod scripts;
mod statements;
mod tables;
mod wholes;

pub use calls::{parse_schema, parse_schema_into, parse_script, parse_statement};
