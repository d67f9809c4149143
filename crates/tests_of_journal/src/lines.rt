//! A line for each commit of docs/JOURNAL.md, whose sums were reckoned by another program.

use journal::Lines;
use std::alloc::{AllocError, Global};
use std::test::Fail;
use table::{Change, Row};
use value::{Text, Value};

/// BOB goes off call, and nobody had committed before.
pub const FIRST: &[u8] =
    b"\n1\t0\t1\t0\t'BOB\t3\t'BOB\t9\t1\t3\t'BOB\t9\t0\t17437670071814014402\t\n";

/// CAROL's row goes, and one of DAN comes.
pub const SECOND: &[u8] =
    b"\n2\t1\t2\t0\t'CAROL\t3\t'CAROL\t9\t1\t0\t0\t'DAN\t0\t3\t'DAN\tN\t-5\t10053107342939392658\t\n";

fn text(alloc: Global, text: &str) -> Result<Value, AllocError> {
    Ok(Value::Text(Text::from_str(alloc, text)?))
}

/// A doctor's row, in shift 9.
fn duty(alloc: Global, doctor: &str, on_call: i64) -> Result<Row, AllocError> {
    let doctor = text(alloc, doctor)?;
    Row::new(vec![in alloc; doctor, Value::Int(9), Value::Int(on_call)]?)
}

/// BOB's row, changed.
fn bob(alloc: Global) -> Result<Change, AllocError> {
    Ok(Change {
        table: 0,
        key: text(alloc, "BOB")?,
        old: Some(duty(alloc, "BOB", 1)?),
        new: Some(duty(alloc, "BOB", 0)?),
    })
}

/// CAROL's row, taken out.
fn carol(alloc: Global) -> Result<Change, AllocError> {
    Ok(Change {
        table: 0,
        key: text(alloc, "CAROL")?,
        old: Some(duty(alloc, "CAROL", 1)?),
        new: None,
    })
}

/// A row of DAN, put in.
fn dan(alloc: Global) -> Result<Change, AllocError> {
    let doctor = text(alloc, "DAN")?;
    Ok(Change {
        table: 0,
        key: text(alloc, "DAN")?,
        old: None,
        new: Some(Row::new(vec![in alloc; doctor, Value::Null, Value::Int(-5)]?)?),
    })
}

#[test]
fn each_kind_of_field(rt: HostRuntime) -> Result<(), Fail> {
    let mut lines = Lines::new(rt.alloc());
    let changed = vec![in rt.alloc(); bob(rt.alloc())?]?;
    lines.add_commit(1, 0, &changed)?;
    assert_eq!(rt; lines.as_slice(), FIRST);
    lines.clear();
    let gone_and_come = vec![in rt.alloc(); carol(rt.alloc())?, dan(rt.alloc())?]?;
    lines.add_commit(2, 1, &gone_and_come)?;
    assert_eq!(rt; lines.as_slice(), SECOND);
    assert_eq!(rt; lines.len(), SECOND.len());
    lines.truncate(1);
    assert_eq!(rt; lines.as_slice(), b"\n".as_slice());
    Ok(())
}
