//! Texts of bytes: names, and the texts that columns hold.

ghost use Rattle.std.specs.Prelude.{◌≡◌, ◌==◌, ◌+◌, ◌<◌, ◌&&◌, ℕ, nat_le, List, length, IfOk, IfSome, IfNone};
ghost use Rattle.std.specs.Str.{continuation_len, is_utf8, IsAscii};
ghost use Rattle.std.specs.List.{list_all};
ghost use Rattle.value.specs.Texts.{is_plain_byte, is_plain, character_count};
ghost use Rattle.std.specs.Ordering.{nat_cmp, as_partial_cmp};
ghost use Rattle.std.specs.Cmp.Lexicographic.{pointwise, slice_cmp};
ghost use Rattle.std.specs.Cmp.{partial_order_from_own_ties};
ghost use Rattle.std.specs.Cmp.Rules.{comparing, hashing};
ghost use Rattle.std.specs.Hash as fed;
ghost use Rattle.std.proofs.Common.{rules};

use std::alloc::{AllocError, Global};
use std::cmp::Ordering;
use std::fmt;
use std::hash::{Hash, Hasher};
use std::marker::Model;
use std::sync::Arc;

/// A text, of any bytes. Two are equal where their bytes are, and a beginning stands before the longer text. A copy
/// shares the bytes.
#[derive(Debug, Drop)]
pub struct Text {
    bytes: Arc<Vec<u8>>,
}

impl Model for Text {
    ghost use Rattle.std.specs.Prelude.{ℕ, List};
    ghost use Rattle.std.specs.Arc.{arc_value};

    ghost Value = { List ℕ };

    ghost view = { λ text. (arc_value text.bytes).items };
}

impl Text {
    /// The text of these bytes.
    pub fn new(bytes: Vec<u8>) -> Result<Text, AllocError>
        ensures { IfOk result (λ text. text ≡ bytes.items) }
    {
        let bytes = Arc::new(*bytes.allocator(), bytes)?;
        Ok(Text { bytes })
    }

    /// The text of a string's bytes.
    pub fn from_str(alloc: Global, string: &str) -> Result<Text, AllocError>
        ensures { IfOk result (λ text. text ≡ string.now) }
    {
        Text::new(Vec::from_slice(alloc, string.as_bytes())?)
    }

    pub fn as_bytes(&self) -> &[u8]
        ensures { result.now ≡ self.now }
    {
        self.bytes.as_slice()
    }

    /// The number of bytes.
    pub fn len(&self) -> usize
        ensures { result ≡ length self.now }
    {
        self.bytes.len()
    }

    /// Whether it is well-formed UTF-8 without the control characters 0x00 to 0x1F and 0x7F, as every text that a
    /// column holds.
    pub fn is_plain(&self) -> bool
        ensures { result ≡ is_plain self.now }
    {
        is_plain(self.as_bytes())
    }

    /// The number of characters, by which SQL-92 (4.2, character strings) measures a text. Where bytes are ill-formed,
    /// it counts each first byte that has as many bytes behind it as it announces.
    pub fn character_count(&self) -> usize
        ensures { result ≡ character_count self.now }
    {
        count_characters(self.as_bytes())
    }

    /// Writes the characters, with this for each quote and U+FFFD where bytes are ill-formed.
    pub(crate) fn write_into<W: fmt::Write>(
        &self,
        f: &mut fmt::Formatter<W>,
        quote: &str,
    ) -> fmt::Result {
        for chunk in self.as_bytes().utf8_chunks() {
            for character in chunk.valid().chars() {
                match character {
                    '\'' => f.write_str(quote)?,
                    _ => f.write_char(character)?,
                }
            }
            if !chunk.invalid().is_empty() {
                f.write_char(char::REPLACEMENT_CHARACTER)?;
            }
        }
        Ok(())
    }

    /// A text equal to this one. It shares the bytes, and takes no memory.
    pub fn copy(&self) -> Result<Text, AllocError>
        ensures { IfOk result (λ copy. copy ≡ self.now) }
    {
        let bytes = Arc::try_clone(&self.bytes)?;
        Ok(Text { bytes })
    }
}

fn is_plain(bytes: &[u8]) -> bool
    ensures { result ≡ is_plain bytes.now }
{
    has_no_controls(bytes) && is_utf8(bytes)
}

/// Whether no byte is a control character of ASCII.
fn has_no_controls(bytes: &[u8]) -> bool
    ensures { result ≡ list_all is_plain_byte bytes.now }
{
    bytes.iter().all(|byte| is_plain_byte(*byte))
}

/// Whether a byte is no control character of ASCII, so that it may stand in a text.
pub fn is_plain_byte(byte: u8) -> bool
    ensures { result ≡ is_plain_byte byte }
{
    0x20 <= byte && byte != 0x7F
}

/// Whether bytes are well-formed UTF-8 (Unicode, D92): characters, each in the one form that the standard gives it.
pub fn is_utf8(bytes: &[u8]) -> bool
    ensures { result ≡ is_utf8 bytes.now }
{
    str::from_utf8(bytes).is_ok()
}

fn count_characters(bytes: &[u8]) -> usize
    ensures { result ≡ character_count bytes.now }
{
    let mut count = 0;
    let mut rest = bytes;
    while let Some(behind) = behind_first(rest) {
        count += 1;
        rest = behind;
    }
    count
}

/// What stands behind the first character, if that is there whole.
#[tactic(auto, using(crate::proofs::Characters::none_counted, crate::proofs::Characters::first_counted, crate::proofs::Characters::first_cut_short))]
fn behind_first(bytes: &[u8]) -> Option<&[u8]>
    ensures counted { IfSome result (λ behind. character_count bytes.now ≡ 1 + character_count behind.now) }
    ensures shorter { IfSome result (λ behind. length behind.now < length bytes.now) }
    ensures none { IfNone result (character_count bytes.now ≡ 0) }
{
    let (first, rest) = bytes.split_first()?;
    let to_come = bytes_to_come(*first);
    if rest.len() < to_come {
        return None;
    }
    Some(&rest[to_come..])
}

/// How many bytes of a character follow its first.
fn bytes_to_come(first: u8) -> usize
    ensures { result ≡ continuation_len first }
{
    match first {
        0x00..=0x7F => 0,
        0x80..=0xDF => 1,
        0xE0..=0xEF => 2,
        0xF0..=0xFF => 3,
    }
}

/// The text, with U+FFFD where bytes are ill-formed.
impl fmt::Display for Text {
    fn fmt<W: fmt::Write>(&self, f: &mut fmt::Formatter<W>) -> fmt::Result {
        self.write_into(f, "'")
    }
}

impl PartialEq for Text {
    ghost eq = { pointwise ◌==◌ };

    ghost laws = { Prim.search (comparing, rules) };

    fn eq(&self, other: &Text) -> bool {
        self.bytes == other.bytes
    }
}

impl Eq for Text {
    ghost laws = { Prim.search (comparing, rules) };
}

impl Hash for Text {
    ghost hash_input = { fed.slice fed.u8 };

    ghost respects_eq = { Prim.search (hashing, rules) };

    fn hash<H: Hasher>(&self, state: &mut H) {
        self.bytes.hash(state);
    }
}

impl Ord for Text {
    ghost cmp = { slice_cmp nat_cmp };

    ghost total = { Prim.search (comparing, rules) };

    ghost matches_partial_cmp = { Prim.search (comparing, rules) };

    ghost matches_eq = { Prim.search (comparing, rules) };

    fn cmp(&self, other: &Text) -> Ordering {
        self.bytes.cmp(&other.bytes)
    }
}

impl PartialOrd for Text {
    ghost partial_cmp = { as_partial_cmp (slice_cmp nat_cmp) };

    ghost laws = { partial_order_from_own_ties (Prim.search (comparing, rules)) (Prim.search (comparing, rules)) };

    fn partial_cmp(&self, other: &Text) -> Option<Ordering> {
        Some(self.cmp(other))
    }
}

/// Over ASCII a character is a byte: a text is plain exactly where each byte is from 0x20 to 0x7E, and has as many
/// characters as bytes.
pub fn ascii_goes_by_bytes()
    ensures plain { (bytes : List ℕ) → IsAscii bytes
        → is_plain bytes ≡ list_all (λ byte. nat_le 32 byte && nat_le byte 126) bytes }
    ensures count { (bytes : List ℕ) → IsAscii bytes → character_count bytes ≡ length bytes }
{}
