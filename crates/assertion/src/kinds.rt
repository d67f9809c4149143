//! The kinds of slots that set functions fill.

ghost use Rattle.std.specs.Prelude.{◌≡◌};
ghost use Rattle.table.specs.Kinds.{kind_of_aggregate};

use table::{Aggregate, SlotKind};

/// The kind of slot that holds what a set function gives, which says how large its number can be.
pub fn kind(aggregate: Aggregate) -> SlotKind
    ensures { result ≡ kind_of_aggregate aggregate }
{
    match aggregate {
        Aggregate::CountRows | Aggregate::Count(_) | Aggregate::CountDistinct(_) => SlotKind::Count,
        Aggregate::Sum(_) | Aggregate::SumDistinct(_) => SlotKind::Sum,
        Aggregate::Min(_) | Aggregate::Max(_) => SlotKind::Extreme,
    }
}
