//! What no clause says: printed text.

use crate::shared::{same, text};
use std::alloc::{AllocError, Global};
use std::fmt::Display;
use std::process::Abort;
use std::test::Fail;
use value::{Excess, Party, Refusal, Root, Text, Value};

/// What a value prints.
fn printed<T: Display + Drop>(alloc: Global, value: T) -> Result<String, AllocError> {
    format!(in alloc; "{value}")
}

/// Ends the test where a value doesn't print so.
fn prints<T: Display + Drop>(
    rt: &(impl Abort + Alloc<A = Global>),
    value: T,
    wanted: &str,
) -> Result<(), Fail> {
    let found = printed(rt.alloc(), value)?;
    same(rt, found.as_str(), wanted);
    Ok(())
}

#[test]
fn values_print_as_sql(rt: HostRuntime) -> Result<(), Fail> {
    prints(&rt, Root::All, "ALL")?;
    prints(&rt, Value::Null, "NULL")?;
    prints(&rt, Value::Int(-7), "-7")?;
    prints(&rt, Root::Of(text(rt.alloc(), "it's")?), "'it''s'")
}

/// The pivot of a dangerous structure.
fn dangerous() -> Refusal {
    Refusal::Dangerous {
        reader: Party::Number(3),
        pivot: Party::This,
        writer: Party::Number(1),
    }
}

/// A text that is too long.
fn too_long(alloc: Global) -> Result<Refusal, AllocError> {
    Ok(Refusal::OutOfRange {
        column: Text::from_str(alloc, "NAME")?,
        excess: Excess::Text,
    })
}

#[test]
fn refusals_print_their_parts(rt: HostRuntime) -> Result<(), Fail> {
    let structure = "3, THIS and 1 are a dangerous structure";
    prints(&rt, dangerous(), structure)?;
    let wanted = "the text is out of the range of NAME";
    prints(&rt, too_long(rt.alloc())?, wanted)
}
