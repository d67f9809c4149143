//! The limit of width.

use sqlite_items::Items;
use std::alloc::{AllocError, Global};
use std::test::Fail;
use table::{Expr, SlotKind, bound};
use value::{Refusal, Value};

/// A number.
fn number(number: i64) -> Expr {
    Expr::Literal(Value::Int(number))
}

/// BAL * BAL * factor.
fn square(alloc: Global, factor: i64) -> Result<Expr, AllocError> {
    let balance = Expr::Column(2);
    let parts = vec![in alloc; balance, Expr::Column(2), number(factor)]?;
    Ok(Expr::Product(Items::from_vec(parts)))
}

/// The bound that was found, 0 where it is too wide, and 1 where there is no memory.
fn bound_or_zero(found: &Result<u128, Refusal>) -> u128 {
    match found {
        Ok(found) => *found,
        Err(Refusal::TooWide) => 0,
        Err(_) => 1,
    }
}

/// The bound of an expression over slots of these kinds, or 0 where it is too wide.
fn bound_in(expr: &Expr, kinds: &[SlotKind]) -> u128 {
    let found = bound(expr, kinds);
    let number = bound_or_zero(&found);
    drop(found);
    number
}

/// The bound of BAL * BAL * factor.
fn bound_of_square(alloc: Global, factor: i64) -> Result<u128, AllocError> {
    let square = square(alloc, factor)?;
    let found = bound_in(&square, &[]);
    drop(square);
    Ok(found)
}

/// The bound of a least or greatest value.
fn bound_of_extreme() -> u128 {
    let slot = Expr::Slot(0);
    let found = bound_in(&slot, &[SlotKind::Extreme]);
    drop(slot);
    found
}

#[test]
fn bound_at_the_limit(rt: HostRuntime) -> Result<(), Fail> {
    assert!(rt; bound_of_square(rt.alloc(), 67_108_864)? == 1u128 << 126);
    assert!(rt; bound_of_square(rt.alloc(), 67_108_865)? == 0);
    assert!(rt; bound_of_extreme() == 1u128 << 50);
    Ok(())
}
