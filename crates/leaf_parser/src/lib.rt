//! A cursor over the tokens of a text, and the parser of all that has no parentheses in it.
//!
//! The parser is a recursive descent by one token of lookahead. Its contracts name the readers of
//! the grammar (crate `syntax`): a function that parses X ensures `Reads` of X's
//! reader, the cursor before it, its answer and the cursor after it. That says all: what was read
//! and what is left; or that no text goes on with the next token (`Stop::Syntax`), or that a
//! parenthesis too many stands there (`Stop::Depth`). `Stop::Memory` says nothing of the text, since
//! memory may run out anywhere (`specs/Reads.antt`).
//!
//! A stop carries no place. The cursor stays at the token that stopped the parser, and whoever reads
//! a whole text takes the place from there, by [`Cursor::place`].
//!
//! A [`Cursor`] is seen by contracts as the list of the tokens that are left, each with its kind,
//! its bytes and where it begins. It lends the bytes of the text, so a token is copied only where a
//! tree keeps its name or its text.
//!
//! What stands here has no parentheses: names and columns, the arguments of set functions, numbers with their
//! signs, texts, the signs of comparisons. And what every layer above needs stands here once, over the trait
//! [`Part`] of what parses a part: [`parse_many`] parts one behind the other, a [`parse_list`] with commas,
//! [`parse_parens`] around a part, and [`parse_joined`], the tree of a list of parts, in which a part of the same
//! kind is merged into the list around it ([`Joint`]). Parts need not be kept: [`collect_many`] puts each into a
//! [`Collection`] as soon as it is found, which may be a list, or what is made of each part at once.
//! `proofs/Turns.antt` has the laws by which loops and parentheses meet their readers.
//!
//! A token whose kind was looked at is taken by [`Cursor::take`], which cannot fail. Where the parser
//! stops, what it had read is let go by [`drop_and_stop`]: a type parameter hides how large it is, and a `?`
//! in its place would be proved field by field.
#![tactic(auto)]

mod columns;
mod cursors;
mod loops;
mod names;
mod parts;
mod signs;
mod stops;

pub use columns::{
    CountArgument, SetFunctionArgument, parse_argument, parse_column, parse_correlation_name,
    parse_group_by,
};
pub use cursors::{Cursor, Piece};
pub use loops::{
    Collection, Part, RepeatedPart, collect_many, expect_after, parse_list, parse_many,
    parse_parens, parse_parens_list,
};
pub use names::{
    NamePart, parse_name, parse_number, parse_signed_number, parse_text, start_list, value_of,
};
pub use parts::{Ands, Joint, Ors, Products, Sums, parse_joined, parse_joined_boxed, reverse};
pub use signs::{parse_comparison_sign, parse_truth};
pub use stops::{Stop, drop_and_stop, stop_for_depth};
