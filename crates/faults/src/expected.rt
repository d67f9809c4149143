//! What may stand at a place of a text.
//!
//! The parser is asked: of a text that begins so, it names the first token that no text of the language has there. So a
//! token may stand behind a beginning where the parser, given the beginning and that token, finds no fault before its
//! end. No list of what may follow what is kept anywhere.

use crate::words::WORDS;
use parse::{parse_schema, parse_script};
use std::alloc::{AllocError, Global};
use token::Kind;
use value::Refusal;

/// Which text it is.
#[derive(Clone, Copy, Debug, PartialEq, Eq)]
pub enum Which {
    Defs,
    Script,
}

/// A beginning that is longer is not asked about: it would be read again for each word.
const LONGEST: usize = 50_000;

/// Puts the kinds of tokens that may stand behind a beginning, in which there is no fault, behind others. None where it
/// is too long to be asked about.
pub fn push_followers(
    alloc: Global,
    which: Which,
    beginning: &[u8],
    kinds: &mut Vec<Kind>,
) -> Result<(), AllocError> {
    if beginning.len() > LONGEST {
        return Ok(());
    }
    let mut tried = Vec::from_slice(alloc, beginning)?;
    // (a line of its own: the beginning may end in a comment)
    tried.push(b'\n')?;
    push_taken(alloc, which, &mut tried, kinds)
}

/// Puts the kinds of those tokens behind others with which the parser goes on behind a beginning.
fn push_taken(
    alloc: Global,
    which: Which,
    tried: &mut Vec<u8>,
    kinds: &mut Vec<Kind>,
) -> Result<(), AllocError> {
    let place = tried.len();
    for (kind, spelling) in &WORDS {
        tried.truncate(place);
        tried.extend_from_slice(spelling.as_bytes())?;
        if is_taken(alloc, which, tried, place)? {
            kinds.push(*kind)?;
        }
    }
    Ok(())
}

/// Whether the parser takes the token at a place of a text, which is the last.
fn is_taken(alloc: Global, which: Which, text: &[u8], place: usize) -> Result<bool, AllocError> {
    let refusal = match which {
        Which::Defs => parse_schema(alloc, text).err(),
        Which::Script => parse_script(alloc, text).err(),
    };
    is_none_before(&refusal, place)
}

/// Whether no fault of the grammar stands before a place or there.
fn is_none_before(refusal: &Option<Refusal>, place: usize) -> Result<bool, AllocError> {
    match refusal {
        Some(Refusal::NoMemory) => Err(AllocError),
        Some(Refusal::Syntax { at } | Refusal::TooDeep { at }) => Ok(*at > place),
        _ => Ok(true),
    }
}
