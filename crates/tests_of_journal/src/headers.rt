//! First lines of files, whose sums were reckoned by another program.

use journal::{Header, Lines, read_header, sum_of};
use std::alloc::{AllocError, Global};
use std::test::Fail;

/// Of these definitions, with an image of the rows after commit 7.
const HEADER: &[u8] = b"skewguard journal 1\t7\t16697876759621788180\t3719024853352176233\t\n";

const DEFINITIONS: &[u8] = b"CREATE TABLE T (ID INTEGER PRIMARY KEY);\n";

/// Of definitions with the greatest sum, in a new journal.
const GREATEST: &[u8] = b"skewguard journal 1\t0\t18446744073709551615\t9068438407065506089\t\n";

fn after_seven() -> Header {
    let declared = sum_of(DEFINITIONS);
    Header { first: 7, declared }
}

/// What the bytes of a header say with this byte in the place of one of them.
fn said_with(alloc: Global, at: usize, byte: u8) -> Result<Option<Header>, AllocError> {
    let mut bytes = Vec::from_slice(alloc, HEADER)?;
    if let Some(place) = bytes.get_mut(at) {
        *place = byte;
    }
    Ok(read_header(&bytes).map(|(header, _)| header))
}

#[test]
fn a_header_is_written_and_read(rt: HostRuntime) -> Result<(), Fail> {
    let mut lines = Lines::new(rt.alloc());
    lines.add_header(&after_seven())?;
    assert_eq!(rt; lines.as_slice(), HEADER);
    assert_eq!(rt; read_header(HEADER), Some((after_seven(), b"".as_slice())));
    lines.clear();
    let declared = u64::MAX;
    lines.add_header(&Header { first: 0, declared })?;
    assert_eq!(rt; lines.as_slice(), GREATEST);
    Ok(())
}

#[test]
fn the_body_begins_behind_it(rt: HostRuntime) -> Result<(), Fail> {
    let mut bytes = Vec::from_slice(rt.alloc(), HEADER)?;
    bytes.extend_from_slice(b"\n7\t7\t0\t\0\0")?;
    let body = b"\n7\t7\t0\t\0\0".as_slice();
    assert_eq!(rt; read_header(&bytes), Some((after_seven(), body)));
    Ok(())
}

#[test]
fn each_changed_byte_is_noticed(rt: HostRuntime) -> Result<(), Fail> {
    for at in 0..HEADER.len() {
        for byte in [0, b'0', b'1', b'\t', b'\n', 255] {
            let said = said_with(rt.alloc(), at, byte)?;
            assert_eq!(rt; said.is_some(), HEADER[at] == byte);
        }
        assert_eq!(rt; read_header(&HEADER[..at]), None);
    }
    Ok(())
}
