//! What stands in front of a piece's event.

ghost use Rattle.std.specs.Prelude.{◌≡◌, ◌≤◌, ◌<◌, length, IfOk, IfSome};
ghost use Rattle.syntax.specs.Reading.{same_kind};
ghost use Rattle.shell.specs.Headings as spec;

use std::alloc::{AllocError, Global};
use token::{Kind, Token, name_bytes, next_token};
use value::Text;

/// The session of a piece that names none.
const NAMELESS: &str = "ME";

/// The session of a piece, and where its event begins.
#[derive(Drop)]
pub struct Address {
    pub session: Text,
    pub from: usize,
}

/// Whether there are blanks and comments alone.
pub fn is_blank(bytes: &[u8]) -> bool
    ensures { result ≡ spec.is_blank bytes.now }
{
    matches!(next_token(bytes, 0), Ok(None))
}

/// Whether two kinds are one.
#[tactic(auto, unfolding(syntax::specs::Reading::same_kind))]
fn is_same(one: Kind, other: Kind) -> bool
    ensures { result ≡ same_kind one other }
{
    one == other
}

/// The next token from an offset on, if it is of this kind.
fn find(bytes: &[u8], from: usize, kind: Kind) -> Option<Token>
    ensures found { result ≡ spec.if_kind kind (spec.next_in bytes.now from) }
    ensures within { IfSome result (λ t. (t.start < t.end) × (t.end ≤ length bytes.now)) }
{
    match next_token(bytes, from) {
        Ok(Some(token)) => {
            if is_same(token.kind, kind) {
                Some(token)
            } else {
                None
            }
        }
        _ => None,
    }
}

/// The session that a piece names in front, or else ME, and where its event begins.
pub fn read_address(alloc: Global, bytes: &[u8]) -> Result<Address, AllocError>
    ensures session { IfOk result (λ address. address.session ≡ (spec.address bytes.now).session) }
    ensures from { IfOk result (λ address. address.from ≡ (spec.address bytes.now).from) }
    ensures within { IfOk result (λ address. address.from ≤ length bytes.now) }
{
    let Some(name) = find(bytes, 0, Kind::Name) else {
        return nameless(alloc);
    };
    match find(bytes, name.end, Kind::Colon) {
        None => nameless(alloc),
        Some(colon) => Ok(Address {
            session: Text::new(name_bytes(alloc, &bytes[name.start..name.end])?)?,
            from: colon.end,
        }),
    }
}

fn nameless(alloc: Global) -> Result<Address, AllocError>
    ensures session { IfOk result (λ address. address.session ≡ spec.nameless.session) }
    ensures from { IfOk result (λ address. address.from ≡ 0) }
{
    Ok(Address {
        session: Text::from_str(alloc, NAMELESS)?,
        from: 0,
    })
}
