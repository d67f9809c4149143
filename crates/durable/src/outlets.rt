//! Where answers go out.

ghost use Rattle.std.specs.Prelude.{◌≡◌, []};
ghost use Rattle.durable.specs.Batches.{entries_waiting};

use crate::ledgers::Ledger;
use journal::Device;

/// The writer of a ledger's answers. Nothing reaches it but by [`Outlet::open`], and so nothing while a commit waits
/// for its sync: who reads an answer may act on it, and no crash may undo what it told him.
#[derive(Drop)]
pub struct Outlet<W> {
    out: W,
}

impl<W> Outlet<W> {
    /// The outlet of a writer.
    pub fn new(out: W) -> Outlet<W> {
        Outlet { out }
    }

    /// The writer, while no commit of the ledger waits.
    pub fn open<D: Device>(&mut self, _ledger: &Ledger<D>) -> &mut W
        requires synced { entries_waiting _ledger.now.writer.batch ≡ [] }
    {
        &mut self.out
    }
}
