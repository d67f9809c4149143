//! Files of two lines, as a crash may leave them and as it can't.

use crate::lines::{FIRST, SECOND};
use journal::{JournalFault, recover};
use std::alloc::{AllocError, Global};
use std::test::Fail;

/// What a file says: how many commits, and where their lines end; or which commit is damaged, and where.
#[derive(Clone, Copy, Debug, PartialEq, Eq)]
enum Finding {
    Commits(usize, usize),
    Damaged(u64, usize),
    NoMemory,
}

/// What these bytes say, one behind the other.
fn said(alloc: Global, parts: &[&[u8]]) -> Result<Finding, AllocError> {
    let mut bytes = Vec::new(alloc);
    for part in parts {
        bytes.extend_from_slice(part)?;
    }
    Ok(match recover(alloc, 1, &bytes) {
        Ok(read) => Finding::Commits(read.entries.len(), read.end),
        Err(JournalFault::Damaged { number, at }) => Finding::Damaged(number, at),
        Err(JournalFault::NoMemory) => Finding::NoMemory,
    })
}

#[test]
fn whole_lines(rt: HostRuntime) -> Result<(), Fail> {
    let both = FIRST.len() + SECOND.len();
    assert_eq!(rt; said(rt.alloc(), &[])?, Finding::Commits(0, 0));
    assert_eq!(rt;
        said(rt.alloc(), &[FIRST, SECOND])?,
        Finding::Commits(2, both)
    );
    assert_eq!(rt;
        said(rt.alloc(), &[FIRST, SECOND, b"\0\0\0"])?,
        Finding::Commits(2, both)
    );
    Ok(())
}

#[test]
fn lines_that_a_crash_tore(rt: HostRuntime) -> Result<(), Fail> {
    let first = Finding::Commits(1, FIRST.len());
    assert_eq!(rt;
        said(rt.alloc(), &[FIRST, b"\n2\t1\t", b"\0\0\0\0"])?,
        first
    );
    assert_eq!(rt; said(rt.alloc(), &[FIRST, b"\0", b"2\t1\t2\t"])?, first);
    assert_eq!(rt; said(rt.alloc(), &[b"\0\0\0"])?, Finding::Commits(0, 0));
    Ok(())
}

#[test]
fn lines_that_no_crash_left(rt: HostRuntime) -> Result<(), Fail> {
    // (another byte in the first line; a number that is not the next; zeros over a commit that was on the disk; a tail
    // that begins with neither a zero nor a line feed)
    assert_eq!(rt;
        said(rt.alloc(), &[b"\n1\t0\t0\t1\t\n", SECOND])?,
        Finding::Damaged(1, 0)
    );
    assert_eq!(rt; said(rt.alloc(), &[SECOND])?, Finding::Damaged(1, 0));
    assert_eq!(rt;
        said(rt.alloc(), &[b"\0\0\0\0", SECOND])?,
        Finding::Damaged(1, 0)
    );
    assert_eq!(rt;
        said(rt.alloc(), &[FIRST, b"X"])?,
        Finding::Damaged(2, FIRST.len())
    );
    Ok(())
}
