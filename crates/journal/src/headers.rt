//! The first line of a journal's file.

ghost use Rattle.std.specs.Prelude.{◌≡◌};
ghost use Rattle.std.specs.Option.{option_map};
ghost use Rattle.journal.specs.Headers.{behind, header_at};

use crate::reading::read_number;
use crate::sums::sum_of;

/// What each header begins with.
pub(crate) const TITLE: &[u8] = b"skewguard journal 1\t";

/// What a journal's first line says.
#[derive(Clone, Copy, Debug, PartialEq, Eq)]
pub struct Header {
    /// The commit after which the rows of the image were the committed ones; 0 in a new journal.
    pub first: u64,
    /// The sum of the definitions' text.
    pub declared: u64,
}

/// The bytes behind these, if they stand in front.
fn read_behind<'a>(front: &[u8], bytes: &'a [u8]) -> Option<&'a [u8]>
    ensures { option_map (λ x. x.now) result ≡ behind front.now bytes.now }
{
    bytes.strip_prefix(front)
}

/// The header in front, where its sum is that of its bytes, and the bytes behind it: first the image, then commits.
#[tactic(auto, unfolding(crate::specs::Headers::header_at))]
pub fn read_header(bytes: &[u8]) -> Option<(Header, &[u8])>
    ensures { option_map (λ x. (x.0, x.1.now)) result ≡ header_at bytes.now }
{
    let rest = read_behind(TITLE, bytes)?;
    let (first, rest) = read_number(rest)?;
    let (declared, rest) = read_number(rest)?;
    let length = bytes.len().saturating_sub(rest.len());
    let (sum, rest) = read_number(rest)?;
    let body = read_behind(b"\n", rest)?;
    if sum == sum_of(&bytes[..length]) {
        Some((Header { first, declared }, body))
    } else {
        None
    }
}
