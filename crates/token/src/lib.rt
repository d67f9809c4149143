//! The tokens of a text, and where each of them begins.
//!
//! A text is a list of bytes. Its tokens follow SQL-92 (ISO/IEC 9075:1992, tokens and
//! separators), cut to what this project reads:
//!
//! - a word: a letter, then letters, digits and `_`. It is one of fifty-two reserved words, or else a
//!   name; case does not count, and a name is taken in upper case. (The list of reserved words and
//!   the limit of 128 bytes, SQL-92's limit of an identifier, are this project's choice.)
//! - a number: the longest run of digits, at most 10^15 (this project's choice). A number directly
//!   followed by a letter is two tokens.
//! - a text: well-formed UTF-8 (Unicode, D92) in single quotes, each quote inside written twice, without the control
//!   characters 0x00 to 0x1F and 0x7F (this project's choice; SQL-92 leaves its characters open).
//! - a mark: one of fifteen, the longest first, so `<>` is one token and `> <` two.
//!
//! Four bytes separate tokens (space, tab, line feed, carriage return), and so does a comment, from
//! `--` up to the end of its line. Where something stands with which no token begins, or a token
//! breaks its limit, a bad token stands, where it begins: a text without its end, or with bytes that no text has, at
//! its opening quote, a word of 129 bytes at its first letter.
//!
//! The rules stand twice. `specs/Rules.antt` has them as one would read them out: which spellings
//! are tokens, by longest runs, with no step of a program. `specs/Lexer.antt` has them as a function
//! on lists of bytes, `tokens_of`, which the grammar above speaks of. The contract of [`next_token`]
//! names both: its answer is what the function says, it is right by the rules, and by the rules no
//! other answer is right. So a bad token is never the reader's mood: it is a place at which the
//! rules let no token stand.
//!
//! [`read_tokens`] gives all tokens of a text, in their order and apart from one another. It refuses no
//! text: a bad token is its last one, of kind `Bad`, since whether a text is refused at that token
//! or before it is for the grammar to say. What the bytes of a token stand for is a function of the
//! bytes alone: [`number_value`], [`name_bytes`] and [`text_bytes`]; [`is_spelled`] compares a word as a name is
//! compared.
#![tactic(auto)]

mod kinds;
mod marks;
mod nexts;
mod readings;
mod spans;
mod words;

pub use kinds::Kind;
pub use nexts::{next_token, read_tokens};
pub use readings::{name_bytes, text_bytes};
pub use spans::Token;
pub use words::{is_spelled, number_value};
