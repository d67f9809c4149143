//! What may not stand for a parameter, and where none may stand. That a filled statement is the one with the constants
//! written in it is proved (`prepared::filled_event_is_written`); that it is found at every place is tested from Python
//! (bindings/python/tests/test_places.py).

use prepared::{Prepared, prepare};
use std::alloc::{AllocError, Global};
use std::process::Abort;
use std::test::Fail;
use value::{Text, Value};

/// What is said of a text that is no statement, or of values that may not stand for its parameters. Nothing, if the
/// values may.
fn fault_of(alloc: Global, text: &str, values: &[Value]) -> Result<String, AllocError> {
    match prepare(alloc, text.as_bytes()) {
        Ok(prepared) => fill_fault(alloc, &prepared, values),
        Err(refusal) => format!(in alloc; "{refusal}"),
    }
}

fn fill_fault(alloc: Global, prepared: &Prepared, values: &[Value]) -> Result<String, AllocError> {
    match prepared.fill(alloc, values) {
        Ok(_) => Ok(String::new(alloc)),
        Err(fault) => format!(in alloc; "{fault}"),
    }
}

fn same(rt: &impl Abort, found: &str, wanted: &str) {
    assert_eq!(rt; found, wanted);
}

/// What may stand for both parameters, and what is said where it may not.
#[test]
fn faults(rt: HostRuntime) -> Result<(), Fail> {
    let alloc = rt.alloc();
    let text = "UPDATE T SET A = ? WHERE B = ?";
    let few = [Value::Int(1)];
    same(
        &rt,
        &fault_of(alloc, text, &few)?,
        "2 values are wanted, and 1 were given",
    );
    let null = [Value::Null, Value::Null];
    same(
        &rt,
        &fault_of(alloc, text, &null)?,
        "parameter 2 may not be NULL: a condition tests for it by IS NULL",
    );
    let large = [Value::Null, Value::Int(1_000_000_000_000_001)];
    same(
        &rt,
        &fault_of(alloc, text, &large)?,
        "parameter 2 is a number beyond 10^15",
    );
    let bytes = [Value::Text(Text::from_str(alloc, "\t")?), Value::Null];
    same(
        &rt,
        &fault_of(alloc, text, &bytes)?,
        "parameter 1 is a text that is no UTF-8, or has a control character",
    );
    Ok(())
}

/// Texts without a parameter, and texts with a `?` where none may stand.
const WITHOUT_VALUES: [(&str, &str); 9] = [
    ("COMMIT", ""),
    ("DELETE FROM T WHERE A = '?' -- ?", ""),
    ("DELETE FROM T WHERE A = - ?", "syntax error at byte 26"),
    ("DELETE FROM T WHERE A = B * +?", "syntax error at byte 29"),
    ("DELETE FROM T WHERE A = B - - ?", "syntax error at byte 30"),
    ("INSERT INTO T VALUES (-?)", "syntax error at byte 23"),
    ("DELETE FROM T WHERE A = ?5", "syntax error at byte 24"),
    ("DELETE FROM T WHERE A = ??", "syntax error at byte 24"),
    ("DELETE FROM ? WHERE A = 1", "syntax error at byte 12"),
];

#[test]
fn none_or_refused(rt: HostRuntime) -> Result<(), Fail> {
    for (text, wanted) in WITHOUT_VALUES {
        same(&rt, &fault_of(rt.alloc(), text, &[])?, wanted);
    }
    Ok(())
}
