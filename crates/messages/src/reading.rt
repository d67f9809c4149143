//! Fields from the front of bytes.

ghost use Rattle.std.specs.Prelude.{◌≡◌};
ghost use Rattle.std.specs.Option.{option_map};
ghost use Rattle.messages.specs.Reading.{Gives, number_at, signed_number, text_at, value_at, values_at, values_in};

use crate::faults::FieldFault;
use std::alloc::Global;
use value::{Text, Value};

/// The number in front, and the bytes behind it; nothing where there are fewer than eight.
pub fn read_number(bytes: &[u8]) -> Option<(u64, &[u8])>
    ensures { option_map (λ x. (x.0, x.1.now)) result ≡ number_at bytes.now }
{
    if bytes.len() < 8 {
        return None;
    }
    let (front, rest) = bytes.split_at(8);
    let number = u64::from_le_bytes([
        front[0], front[1], front[2], front[3], front[4], front[5], front[6], front[7],
    ]);
    Some((number, rest))
}

/// The text in front, and the bytes behind it; nothing where there are fewer than its length says.
#[tactic(auto, unfolding(crate::specs::Reading::text_at))]
pub fn read_text(bytes: &[u8]) -> Option<(&[u8], &[u8])>
    ensures { option_map (λ x. (x.0.now, x.1.now)) result ≡ text_at bytes.now }
{
    let (length, rest) = read_number(bytes)?;
    let length = length as usize;
    if rest.len() < length {
        return None;
    }
    let (text, rest) = rest.split_at(length);
    Some((text, rest))
}

/// The number whose two's complement this is.
fn signed_number(bits: u64) -> i64
    ensures { result ≡ signed_number bits }
{
    if bits <= i64::MAX as u64 {
        bits as i64
    } else {
        -1 - (u64::MAX - bits) as i64
    }
}

#[tactic(auto, unfolding(crate::specs::Reading::value_at))]
fn read_value(alloc: Global, bytes: &[u8]) -> Result<(Value, &[u8]), FieldFault>
    ensures { Gives (λ x. (x.0, x.1.now)) result (value_at bytes.now) }
{
    match bytes {
        [0, rest @ ..] => Ok((Value::Null, rest)),
        [1, rest @ ..] => {
            let Some((bits, rest)) = read_number(rest) else {
                return Err(FieldFault::Malformed);
            };
            Ok((Value::Int(signed_number(bits)), rest))
        }
        [2, rest @ ..] => {
            let Some((text, rest)) = read_text(rest) else {
                return Err(FieldFault::Malformed);
            };
            let text = Text::new(Vec::from_slice(alloc, text)?)?;
            Ok((Value::Text(text), rest))
        }
        _ => Err(FieldFault::Malformed),
    }
}

/// So many values, and the bytes behind them.
pub fn read_some(alloc: Global, count: u64, bytes: &[u8]) -> Result<(Vec<Value>, &[u8]), FieldFault>
    ensures { Gives (λ x. (x.0.items, x.1.now)) result (values_in count bytes.now) }
{
    let mut values = Vec::new(alloc);
    let mut rest = bytes;
    for _ in 0..count {
        let (value, behind) = read_value(alloc, rest)?;
        values.push(value)?;
        rest = behind;
    }
    Ok((values, rest))
}

/// The values that are all of the bytes, behind how many there are. [`FieldFault::Malformed`] where the bytes end
/// before them or go on behind them, or where a value is of no kind; [`FieldFault::NoMemory`] where memory runs out.
#[tactic(auto, unfolding(crate::specs::Reading::values_at))]
pub fn read_values(alloc: Global, bytes: &[u8]) -> Result<Vec<Value>, FieldFault>
    ensures { Gives (λ v. v.items) result (values_at bytes.now) }
{
    let Some((count, rest)) = read_number(bytes) else {
        return Err(FieldFault::Malformed);
    };
    let (values, rest) = read_some(alloc, count, rest)?;
    if !rest.is_empty() {
        return Err(FieldFault::Malformed);
    }
    Ok(values)
}
