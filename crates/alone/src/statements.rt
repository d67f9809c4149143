//! Statements with their names found.

use assertcheck::{Delete, NewRows, Select, Update};
use sqlite_items::Items;
use syntax::Mode;
use value::{Refusal, Text};

/// A statement with its names found, as a transaction's trace holds it: it can be run again on other rows. One that
/// was refused for its names, shape, types or width, for a mode that it may not set, or since its transaction is read
/// only, is just that refusal.
#[derive(Debug, Drop)]
pub enum ResolvedStatement {
    Refused(Refusal),
    Insert(NewRows),
    Update(Update),
    Delete(Delete),
    Select(Select),
    /// SET CONSTRAINTS, with the names of the assertions that it means.
    SetModes { names: Items<Text>, mode: Mode },
    /// VERDICT, with a name that may be no assertion's.
    Verdict(Text),
}
