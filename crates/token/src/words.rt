//! Words, numbers and texts, at the front of a text.

ghost use Rattle.std.specs.Prelude.{◌≡◌, ◌≤◌, ◌==◌, false, length, map, Some, IfSome};
ghost use Rattle.std.specs.Str.{bytes_eq};
ghost use Rattle.std.specs.Char.{to_ascii_uppercase};
ghost use Rattle.std.specs.List.{prefix_len, list_all, zip};
ghost use Rattle.token.specs.Bytes as byte;
ghost use Rattle.token.specs.Spellings as spelling;
ghost use Rattle.token.specs.Lexer as spec;

use crate::kinds::{
    Kind, WORDS_OF_2, WORDS_OF_3, WORDS_OF_4, WORDS_OF_5, WORDS_OF_6, WORDS_OF_7, WORDS_OF_8,
    WORDS_OF_9, WORDS_OF_10, WORDS_OF_11,
};
use value::{is_plain_byte, is_utf8};

/// SQL-92's limit of an identifier.
const MOST_WORD_BYTES: usize = 128;

/// This project's choice: far below what 64 bits hold.
const LARGEST_NUMBER: u64 = 1_000_000_000_000_000;

/// A kind, and a length in bytes.
#[derive(Clone, Copy, Debug)]
pub struct Front {
    pub kind: Kind,
    pub len: usize,
}

fn is_word_byte(b: u8) -> bool
    ensures { result ≡ byte.is_word_byte b }
{
    b.is_ascii_alphanumeric() || b == b'_'
}

fn word_len(text: &[u8]) -> usize
    ensures { result ≡ prefix_len byte.is_word_byte text.now }
{
    text.iter().take_while(|b| is_word_byte(**b)).count()
}

fn digits_len(text: &[u8]) -> usize
    ensures { result ≡ prefix_len byte.is_digit text.now }
{
    text.iter().take_while(|b| b.is_ascii_digit()).count()
}

fn is_alike(word: &[u8], upper: &[u8]) -> bool
    ensures { result ≡ list_all (λ p. to_ascii_uppercase p.0 == p.1) (zip word.now upper.now) }
{
    word.iter()
        .zip(upper)
        .all(|(a, b)| a.to_ascii_uppercase() == *b)
}

/// Whether a word is this one, in any case of letters: whether it is `upper` in upper case.
pub fn is_spelled(word: &[u8], upper: &[u8]) -> bool
    ensures { result ≡ bytes_eq (byte.name_of word.now) upper.now }
{
    word.len() == upper.len() && is_alike(word, upper)
}

fn find_word(words: &[(&[u8], Kind)], word: &[u8]) -> Kind
    ensures { result ≡ spelling.find_word (map (λ w. (w.0.now, w.1)) words.now) (byte.name_of word.now) }
{
    for (upper, kind) in words {
        if is_spelled(word, upper) {
            return *kind;
        }
    }
    Kind::Name
}

/// The kind of a word, which is looked for among the reserved words of its length.
#[tactic(auto, using(crate::proofs::Lengths::kind_of_no_length))]
fn word_kind(word: &[u8]) -> Kind
    ensures { result ≡ spelling.word_kind word.now }
{
    match word.len() {
        2 => find_word(&WORDS_OF_2, word),
        3 => find_word(&WORDS_OF_3, word),
        4 => find_word(&WORDS_OF_4, word),
        5 => find_word(&WORDS_OF_5, word),
        6 => find_word(&WORDS_OF_6, word),
        7 => find_word(&WORDS_OF_7, word),
        8 => find_word(&WORDS_OF_8, word),
        9 => find_word(&WORDS_OF_9, word),
        10 => find_word(&WORDS_OF_10, word),
        11 => find_word(&WORDS_OF_11, word),
        _ => Kind::Name,
    }
}

/// The word at the front, which begins with a letter.
pub fn read_word(text: &[u8]) -> Option<Front>
    ensures { result ≡ spec.word text.now }
{
    let len = word_len(text);
    if len > MOST_WORD_BYTES {
        return None;
    }
    Some(Front {
        kind: word_kind(&text[..len]),
        len,
    })
}

/// The value of a run of digits, or `None` where it is above 10^15. A token of kind `Number` has
/// a value.
#[tactic(auto, unfolding(crate::specs::Lexer::number_value, crate::specs::Spellings::decimal))]
pub fn number_value(digits: &[u8]) -> Option<u64>
    ensures { result ≡ spec.number_value digits.now }
{
    let mut value = 0;
    for digit in digits {
        value = 10 * value + u64::from(digit.saturating_sub(b'0'));
        if value > LARGEST_NUMBER {
            return None;
        }
    }
    Some(value)
}

/// The number at the front, which begins with a digit.
pub fn read_number(text: &[u8]) -> Option<Front>
    ensures { result ≡ spec.number text.now }
{
    let len = digits_len(text);
    number_value(&text[..len])?;
    Some(Front {
        kind: Kind::Number,
        len,
    })
}

/// How many bytes there are up to and with the closing quote.
#[tactic(auto, unfolding(crate::specs::Lexer::closing))]
fn find_closing(text: &[u8]) -> Option<usize>
    ensures value { result ≡ spec.closing false text.now }
    ensures within { IfSome result (λ len. len ≤ length text.now) }
{
    // Whether the byte before is a quote that closes unless another follows.
    let mut closed = false;
    for (at, b) in text.iter().enumerate() {
        if *b == b'\'' {
            closed = !closed;
        } else if closed {
            return Some(at);
        } else if !is_plain_byte(*b) {
            return None;
        }
    }
    if closed { Some(text.len()) } else { None }
}

/// So many bytes at the front, if they are well-formed UTF-8.
fn len_if_utf8(text: &[u8], len: usize) -> Option<usize>
    requires { len ≤ length text.now }
    ensures { result ≡ spec.if_utf8 text.now (Some len) }
{
    is_utf8(&text[..len]).then_some(len)
}

/// The text in quotes at the front, which begins with a quote.
pub fn read_text(text: &[u8]) -> Option<Front>
    requires { 1 ≤ length text.now }
    ensures { result ≡ spec.quotation text.now }
{
    let behind = &text[1..];
    let len = len_if_utf8(behind, find_closing(behind)?)?;
    Some(Front {
        kind: Kind::Text,
        len: len + 1,
    })
}
