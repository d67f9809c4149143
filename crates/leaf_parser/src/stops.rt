//! Why the parser stopped.

ghost use Rattle.std.specs.Prelude.{◌≡◌};
ghost use Rattle.syntax.specs.Language.{kind_at};
ghost use Rattle.leaf_parser.specs.Reads.{full_stop};

use crate::cursors::Cursor;
use std::alloc::{AllocError, AllocFailed};
use token::Kind;

/// Why the parser stopped, at the token that is next.
#[derive(Clone, Copy, Debug, PartialEq, Eq)]
pub enum Stop {
    /// No memory was left.
    Memory,
    /// No text of the grammar goes on so.
    Syntax,
    /// One parenthesis too many.
    Depth,
}

impl From<AllocError> for Stop {
    ghost use Rattle.std.specs.Prelude.{◌≡◌};
    ghost use Rattle.leaf_parser.specs.declared.stops.Stop.TheVariants.{Memory};

    ghost from_gives = { λ _ e. e ≡ Memory };

    fn from(_: AllocError) -> Stop {
        Stop::Memory
    }
}

impl<T: Drop> From<AllocFailed<T>> for Stop {
    ghost use Rattle.std.specs.Prelude.{◌≡◌};
    ghost use Rattle.leaf_parser.specs.declared.stops.Stop.TheVariants.{Memory};

    ghost from_gives = { λ _ e. e ≡ Memory };

    fn from(_: AllocFailed<T>) -> Stop {
        Stop::Memory
    }
}

/// Why the parser stops where no parenthesis may be opened.
#[tactic(auto, unfolding(syntax::specs::Reading::same_kind))]
pub fn stop_for_depth(cursor: &Cursor<'_>) -> Stop
    ensures { result ≡ full_stop (kind_at cursor.now) }
{
    if cursor.peek() == Kind::Open {
        Stop::Depth
    } else {
        Stop::Syntax
    }
}

/// Why the parser stopped, once what it had read is let go.
pub fn drop_and_stop<T: Drop>(stop: Stop, _read: T) -> Stop
    ensures { result ≡ stop }
{
    stop
}
