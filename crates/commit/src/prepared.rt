//! Commits that are prepared.

ghost use Rattle.std.specs.Prelude.{◌≡◌};

use delta::View;
use txn::ClosedTransaction;
use value::Text;

/// A commit that is prepared: its transaction and its session, the tables after it, and the least commit to which
/// it conflicts, or its own number. It must be spent.
pub struct Prepared {
    pub closed: ClosedTransaction,
    pub session: Text,
    pub tables: View,
    pub place: u64,
}

/// The transaction of a commit that is given up.
pub fn give_up(prepared: Prepared) -> ClosedTransaction
    ensures { result ≡ prepared.closed }
{
    let Prepared {
        closed,
        session: _,
        tables: _,
        place: _,
    } = prepared;
    closed
}
