//! The truths of assertions that are maintained, for whoever has run events.

ghost use Rattle.std.specs.Prelude.{◌≡◌, map, IfOk};
ghost use Rattle.std.specs.Option.{option_map};
ghost use Rattle.commit.specs.Verdicts.{live_truths};

use crate::seats::Seat;
use std::alloc::{AllocError, Global};
use txn::list_truths;
use value::Truth;

/// Of each seat the truths on the own view of its open transaction, or none where no transaction is open.
pub fn list_live_truths(
    alloc: Global,
    seats: &[Seat],
) -> Result<Vec<Option<Vec<Truth>>>, AllocError>
    ensures { IfOk result (λ live. map (option_map (λ truths. truths.items)) live.items ≡ map live_truths seats.now) }
{
    let mut live = Vec::new(alloc);
    for seat in seats {
        live.push(truths_in(alloc, seat)?)?;
    }
    Ok(live)
}

fn truths_in(alloc: Global, seat: &Seat) -> Result<Option<Vec<Truth>>, AllocError>
    ensures { IfOk result (λ truths. option_map (λ truths. truths.items) truths ≡ live_truths seat.now) }
{
    match &seat.txn {
        None => Ok(None),
        Some(txn) => Ok(Some(list_truths(alloc, txn.own())?)),
    }
}
