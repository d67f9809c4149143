//! Names of the language.

ghost use Rattle.std.specs.Prelude.{◌≡◌, IfOk};
ghost use Rattle.token.specs.Bytes.{name_of};
ghost use Rattle.syntax.specs.Reading.{same_kind};
ghost use Rattle.messages.specs.Names as spec;

use std::alloc::{AllocError, Global};
use token::{Kind, Token, name_bytes, next_token};
use value::Text;

/// Whether a kind is that of names.
#[tactic(auto, unfolding(syntax::specs::Reading::same_kind))]
fn is_name_kind(kind: Kind) -> bool
    ensures { result ≡ same_kind kind spec.name_kind }
{
    kind == Kind::Name
}

/// Whether a token is a name from the first byte to this end.
fn is_whole_name(token: Token, end: usize) -> bool
    ensures { result ≡ spec.is_whole_name token end }
{
    is_name_kind(token.kind) && token.start == 0 && token.end == end
}

/// Whether all of the bytes are one name of the language.
pub fn is_name(bytes: &[u8]) -> bool
    ensures { result ≡ spec.is_name bytes.now }
{
    match next_token(bytes, 0) {
        Ok(Some(token)) => is_whole_name(token, bytes.len()),
        _ => false,
    }
}

/// A name in upper case, since case does not count.
pub fn read_name(alloc: Global, bytes: &[u8]) -> Result<Text, AllocError>
    ensures { IfOk result (λ name. name ≡ name_of bytes.now) }
{
    let name = name_bytes(alloc, bytes)?;
    Text::new(name)
}
