//! What a COMMIT is answered.

ghost use Rattle.std.specs.Prelude.{◌≡◌, ◌<◌, length, slice_index_or, All, IfOk};
ghost use Rattle.table.specs.declared.rows.Change.{Change as AnyChange};
ghost use Rattle.table.specs.Rows.{names_of};
ghost use Rattle.commit.specs.Decisions.{IsConflictOf, danger_refusal};

use conflict::Danger;
use std::alloc::AllocError;
use table::{Catalog, Change};
use value::{Party, Refusal};

/// What a COMMIT is answered.
#[derive(Drop)]
pub enum Decision {
    /// It is accepted, and this is the least commit to which it conflicts, or its own number.
    Accepted(u64),
    Refused(Refusal),
}

/// The refusal by a commit that changed the row of one of some changes.
pub fn refuse_for_writer(
    catalog: &Catalog,
    changes: &[Change],
    row: usize,
    by: u64,
) -> Result<Refusal, AllocError>
    requires within { row < length changes.now }
    requires tables { All (λ change. change.table < length (names_of catalog.now)) changes.now }
    ensures { IfOk result (λ refusal.
        (change : AnyChange) → IsConflictOf catalog.now (slice_index_or changes.now row change) by refusal) }
{
    let change = &changes[row];
    match catalog.name(change.table) {
        Some(name) => Ok(Refusal::WriteConflict {
            table: name.copy()?,
            key: change.key.copy()?,
            by,
        }),
        None => unreachable!(),
    }
}

/// The refusal by a dangerous triple.
pub fn refuse_for_triple(danger: Danger) -> Refusal
    ensures { result ≡ danger_refusal danger }
{
    match danger {
        Danger::AsPivot { reader, writer } => Refusal::Dangerous {
            reader: Party::Number(reader),
            pivot: Party::This,
            writer: Party::Number(writer),
        },
        Danger::AsReader { pivot, writer } => Refusal::Dangerous {
            reader: Party::This,
            pivot: Party::Number(pivot),
            writer: Party::Number(writer),
        },
    }
}
