//! Lines of the report that no run prints, each by its bytes.

use alone::{Record, RefusedCommit};
use report::{write_commit, write_count, write_refusal, write_refused_commit, write_verdict};
use sqlite_items::Items;
use std::alloc::Global;
use std::process::Abort;
use std::test::Fail;
use table::{Change, Row};
use value::{Refusal, Root, Text, Truth, Value};

/// The line of a refused text.
fn refused(alloc: Global, refusal: &Refusal) -> Result<Vec<u8>, Fail> {
    let mut out = Vec::new(alloc);
    write_refusal("DEFS", refusal, &mut out)?;
    Ok(out)
}

/// Ends the test where a refused text has another line.
fn refuses(
    rt: &(impl Abort + Alloc<A = Global>),
    refusal: Refusal,
    wanted: &str,
) -> Result<(), Fail> {
    let out = refused(rt.alloc(), &refusal);
    drop(refusal);
    assert_eq!(rt; out?.as_slice(), wanted.as_bytes());
    Ok(())
}

/// The fault of a number that names nothing, or a place of a text.
fn plain(number: u64) -> Refusal {
    match number {
        1 => Refusal::NoMemory,
        2 => Refusal::Syntax { at: 41 },
        5 => Refusal::TypeMismatch,
        14 => Refusal::NoTransaction,
        15 => Refusal::TransactionOpen,
        16 => Refusal::Stranger,
        17 => Refusal::EpochFull,
        18 => Refusal::TooWide,
        19 => Refusal::TooDeep { at: 90 },
        20 => Refusal::OutsideClass,
        23 => Refusal::ReadOnlyTransaction,
        _ => Refusal::TooManySessions,
    }
}

/// The numbers of those faults, and their lines.
const PLAIN: &[(u64, &str)] = &[
    (1, "DEFS: REFUSED 1 - NO MEMORY\n"),
    (2, "DEFS: REFUSED 2 - SYNTAX 41\n"),
    (5, "DEFS: REFUSED 5 - TYPE\n"),
    (14, "DEFS: REFUSED 14 - NO TRANSACTION\n"),
    (15, "DEFS: REFUSED 15 - TRANSACTION OPEN\n"),
    (16, "DEFS: REFUSED 16 - STRANGER\n"),
    (17, "DEFS: REFUSED 17 - EPOCH FULL\n"),
    (18, "DEFS: REFUSED 18 - TOO WIDE\n"),
    (19, "DEFS: REFUSED 19 - TOO DEEP 90\n"),
    (20, "DEFS: REFUSED 20 - OUTSIDE CLASS\n"),
    (23, "DEFS: REFUSED 23 - READ ONLY\n"),
    (24, "DEFS: REFUSED 24 - TOO MANY SESSIONS\n"),
];

#[test]
fn plain_faults_print(rt: HostRuntime) -> Result<(), Fail> {
    for (number, wanted) in PLAIN {
        refuses(&rt, plain(*number), wanted)?;
    }
    Ok(())
}

/// A list of one item.
fn one<T: Drop>(alloc: Global, item: T) -> Result<Vec<T>, Refusal> {
    let mut items = Vec::new(alloc);
    items.push(item)?;
    Ok(items)
}

/// A net change of one row.
fn row_put_in(alloc: Global) -> Result<Items<Change>, Refusal> {
    let row = Row::new(one(alloc, Value::Int(7))?)?;
    let change = Change {
        table: 0,
        key: Value::Int(7),
        old: None,
        new: Some(row),
    };
    Ok(Items::from_vec(one(alloc, change)?))
}

/// A commit on the tables of the start.
fn commit(alloc: Global, number: u64, session: Text, changes: Items<Change>) -> Record {
    Record {
        number,
        snapshot: 0,
        read_only: false,
        session,
        trace: Items::new(alloc),
        reads: Items::new(alloc),
        changes,
    }
}

/// A commit of one row.
fn writer(alloc: Global, number: u64, session: &str) -> Result<Record, Refusal> {
    let session = Text::from_str(alloc, session)?;
    Ok(commit(alloc, number, session, row_put_in(alloc)?))
}

/// The session A, which left COVER false at 7.
fn violation(alloc: Global) -> Result<RefusedCommit, Refusal> {
    let session = Text::from_str(alloc, "A")?;
    let assertion = Text::from_str(alloc, "COVER")?;
    let group = Root::Of(Value::Int(7));
    Ok(RefusedCommit {
        session,
        refusal: Refusal::Violated { assertion, group },
    })
}

/// Writes the line of a commit.
fn write_writer(alloc: Global, out: &mut Vec<u8>) -> Result<(), Fail> {
    let commit = writer(alloc, 12, "A")?;
    let written = write_commit(&commit, out);
    drop(commit);
    Ok(written?)
}

/// Writes the lines of a refused commit and of a count before it.
fn write_violation(alloc: Global, out: &mut Vec<u8>) -> Result<(), Fail> {
    write_count("REFUSED ", 3, out)?;
    let refused = violation(alloc)?;
    let written = write_refused_commit(&refused, out);
    drop(refused);
    Ok(written?)
}

/// Writes the lines of an assertion and of a count before it.
fn write_cap(alloc: Global, out: &mut Vec<u8>) -> Result<(), Fail> {
    write_count("ASSERTIONS ", 1, out)?;
    let name = Text::from_str(alloc, "CAP")?;
    write_verdict(&name, Truth::False, out)?;
    Ok(())
}

#[test]
fn lines_stand_one_by_one(rt: HostRuntime) -> Result<(), Fail> {
    let mut out = Vec::new(rt.alloc());
    write_writer(rt.alloc(), &mut out)?;
    write_violation(rt.alloc(), &mut out)?;
    write_cap(rt.alloc(), &mut out)?;
    assert_eq!(rt;
        out.as_slice(),
        b"12 A SNAPSHOT 0 ROWS 1\nREFUSED 3\nA 10 40002 COVER 7\nASSERTIONS 1\nCAP FALSE\n".as_slice()
    );
    Ok(())
}
