//! How large the numbers of expressions can be.

ghost use Rattle.std.specs.Prelude.{◌≡◌, ◌≤◌, ◌^◌, IfOk, IfSome, ok_or};
ghost use Rattle.value.specs.declared.refusals.Refusal.TheVariants.{TooWide};
ghost use Rattle.table.specs.Bounds.{bound_of, is_bounded as is_bounded_of};
ghost use Rattle.table.specs.Slots.{limit as limit_of};

use crate::conds::Cond;
use crate::exprs::Expr;
use crate::slots::SlotKind;
use value::{Refusal, Value};

/// The greatest bound that an expression may have.
const LIMIT: u128 = 1 << 126;

/// What no number in a column passes, nor one that MIN or MAX gives.
const COLUMN: u128 = 1 << 50;

/// What no COUNT passes.
const COUNT: u128 = 1 << 64;

/// What no SUM passes.
const SUM: u128 = 1 << 114;

/// The bound of an expression, over slots of these kinds. TooWide where a part or a partial result passes 2^126. It
/// takes no memory.
pub fn bound(expr: &Expr, kinds: &[SlotKind]) -> Result<u128, Refusal>
    ensures value { result ≡ ok_or (bound_of kinds.now expr.now) TooWide }
    ensures limited { IfOk result (λ b. b ≤ 2 ^ 126) }
{
    bound_within(expr, kinds).ok_or(Refusal::TooWide)
}

/// Whether each expression of a condition has a bound. It takes no memory.
pub fn is_bounded(cond: &Cond, kinds: &[SlotKind]) -> bool
    ensures { result ≡ is_bounded_of kinds.now cond.now }
{
    match cond {
        Cond::Compare(_, left, right) => {
            bound_within(left, kinds).is_some() && bound_within(right, kinds).is_some()
        }
        Cond::IsNull(part) => bound_within(part, kinds).is_some(),
        Cond::Exists(_) => true,
        Cond::Is(part, _) | Cond::Not(part) => is_bounded(part.get(), kinds),
        Cond::And(parts) | Cond::Or(parts) => {
            for part in parts.as_slice() {
                if !is_bounded(part, kinds) {
                    return false;
                }
            }
            true
        }
    }
}

/// The bound of an expression, if no part and no partial result passes the limit.
fn bound_within(expr: &Expr, kinds: &[SlotKind]) -> Option<u128>
    ensures value { result ≡ bound_of kinds.now expr.now }
    ensures limited { IfSome result (λ b. b ≤ 2 ^ 126) }
{
    match expr {
        Expr::Literal(Value::Int(number)) => Some(number.unsigned_abs() as u128),
        Expr::Literal(Value::Null | Value::Text(_)) => Some(0),
        Expr::Column(_) => Some(COLUMN),
        Expr::Slot(slot) => match kinds.get(*slot) {
            Some(kind) => Some(limit(*kind)),
            None => Some(COLUMN),
        },
        Expr::Negation(part) => bound_within(part.get(), kinds),
        Expr::Sum(parts) => {
            let mut total = 0u128;
            for part in parts.as_slice() {
                total += bound_within(part, kinds)?;
                if total > LIMIT {
                    return None;
                }
            }
            Some(total)
        }
        Expr::Product(factors) => {
            let mut total = 1u128;
            for factor in factors.as_slice() {
                total = total.checked_mul(bound_within(factor, kinds)?)?;
                if total > LIMIT {
                    return None;
                }
            }
            Some(total)
        }
    }
}

/// What no number in a slot of this kind passes.
fn limit(kind: SlotKind) -> u128
    ensures value { result ≡ limit_of kind }
    ensures small { result ≤ 2 ^ 114 }
{
    match kind {
        SlotKind::Count => COUNT,
        SlotKind::Sum => SUM,
        SlotKind::Extreme => COLUMN,
    }
}
