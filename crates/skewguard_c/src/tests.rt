//! Calls by the bytes of their requests and replies. A library lives over no `?`: that it may be dropped there is
//! proved dearly.

use calls::{Library, open, open_journal, serve, take_calls};
use std::alloc::Global;
use std::test::*;

const DEFS: &str =
    "CREATE TABLE DUTY (ID INTEGER PRIMARY KEY, SHIFT INTEGER); INSERT INTO DUTY VALUES (5, 9);";

/// A call, and whether its status and its reply are these.
fn answers(
    rt: HostRuntime,
    library: &mut Library,
    operation: u32,
    request: &[u8],
    status: i32,
    reply: &[u8],
) -> bool {
    let mut buf = [0u8; 128];
    let mut len = 0;
    let given = serve(library, rt.alloc(), operation, request, &mut buf, &mut len);
    given == status && len == reply.len() && len <= 128 && &buf[..len] == reply
}

/// The bytes of numbers, one behind the other, and a text behind them.
fn numbered(alloc: Global, numbers: &[u64], text: &[u8]) -> Result<Vec<u8>, Fail> {
    let mut bytes = Vec::new(alloc);
    for number in numbers {
        bytes.extend_from_slice(&number.to_le_bytes())?;
    }
    bytes.extend_from_slice(text)?;
    Ok(bytes)
}

/// Opens the session 1 of the name BOB, and begins its transaction.
fn begins(rt: HostRuntime, library: &mut Library, one: &[u8]) -> bool {
    answers(rt, library, 0, b"", 0, b"\x01\x01\0\0\0\0\0\0\0")
        && answers(rt, library, 2, b"bob", 0, b"\x02\x01\0\0\0\0\0\0\0")
        && answers(rt, library, 2, b"BOB", 10, b"\0")
        && answers(rt, library, 8, one, 0, b"\x05\0\0\0\0\0\0\0\0")
}

/// Commits, and closes the session.
fn ends(rt: HostRuntime, library: &mut Library, one: &[u8]) -> bool {
    answers(rt, library, 10, one, 0, b"\x06\x01\0\0\0\0\0\0\0")
        && answers(rt, library, 3, one, 0, b"\x04")
        && answers(rt, library, 8, one, 5, b"\0")
        && answers(rt, library, 99, b"", 4, b"\0")
}

#[test]
fn one_session(rt: HostRuntime) -> Result<(), Fail> {
    let alloc = rt.alloc();
    let definitions = numbered(alloc, &[100], DEFS.as_bytes())?;
    let one = 1u64.to_le_bytes();
    let mut library = open(alloc, &definitions);
    let told = begins(rt, &mut library, &one) && ends(rt, &mut library, &one);
    drop(library);
    assert!(rt; told);
    Ok(())
}

/// Keeps an INSERT, and runs it with -1 and NULL.
fn inserts(rt: HostRuntime, library: &mut Library, run: &[u8]) -> bool {
    let kept = b"\x03\x01\0\0\0\0\0\0\0\x02\0\0\0\0\0\0\0";
    answers(rt, library, 4, b"INSERT INTO DUTY VALUES (?, ?)", 0, kept)
        && answers(rt, library, 6, run, 0, b"\x08\x01\0\0\0\0\0\0\0")
        && answers(
            rt,
            library,
            1,
            b"",
            0,
            b"\x0e\x0e\0\0\0\0\0\0\0BOB: INSERT 1\n",
        )
}

/// Forgets the statement.
fn forgets(rt: HostRuntime, library: &mut Library, one: &[u8], run: &[u8]) -> bool {
    answers(rt, library, 5, one, 0, b"\x04") && answers(rt, library, 6, run, 6, b"\0")
}

#[test]
fn a_statement_with_values(rt: HostRuntime) -> Result<(), Fail> {
    let alloc = rt.alloc();
    let definitions = numbered(alloc, &[100], DEFS.as_bytes())?;
    let run = numbered(alloc, &[1, 1, 2], b"\x01\xff\xff\xff\xff\xff\xff\xff\xff\0")?;
    let one = 1u64.to_le_bytes();
    let mut library = open(alloc, &definitions);
    let told = begins(rt, &mut library, &one)
        && inserts(rt, &mut library, &run)
        && forgets(rt, &mut library, &one, &run);
    drop(library);
    assert!(rt; told);
    Ok(())
}

/// A statement and its last value, behind a number and a byte for the kind of a value.
fn step_with(alloc: Global, key: u64) -> Result<Vec<u8>, Fail> {
    let mut step = numbered(alloc, &[1, 2], b"\x01")?;
    step.extend_from_slice(&numbered(alloc, &[key], b"\0")?)?;
    Ok(step)
}

/// The request to run the statement 1 in the session 1 with these keys.
fn steps_with(alloc: Global, keys: &[u64]) -> Result<Vec<u8>, Fail> {
    let mut request = numbered(alloc, &[1, keys.len() as u64], b"")?;
    for key in keys {
        request.extend_from_slice(&step_with(alloc, *key)?)?;
    }
    Ok(request)
}

/// Keeps an INSERT that ends with its `;`, and runs it twice in one call.
fn inserts_twice(rt: HostRuntime, library: &mut Library, steps: &[u8]) -> bool {
    let [_, cut @ ..] = steps else {
        return false;
    };
    let kept = b"\x03\x01\0\0\0\0\0\0\0\x02\0\0\0\0\0\0\0";
    let done = b"\x11\x02\0\0\0\0\0\0\0\x08\x01\0\0\0\0\0\0\0\x08\x01\0\0\0\0\0\0\0";
    let lines =
        b"\x11\x02\0\0\0\0\0\0\0\x0e\x0e\0\0\0\0\0\0\0BOB: INSERT 1\n\x0e\x0e\0\0\0\0\0\0\0BOB: INSERT 1\n";
    answers(
        rt,
        library,
        4,
        b"INSERT INTO DUTY VALUES (?, ?); -- one",
        0,
        kept,
    ) && answers(rt, library, 14, steps, 0, done)
        && answers(rt, library, 1, b"", 0, lines)
        && answers(rt, library, 14, cut, 4, b"\0")
}

/// What two transactions of one call are answered: the first commits, and the next finds its row there, and is rolled
/// back.
fn transacts_twice(rt: HostRuntime, library: &mut Library, one: &[u8], steps: &[u8]) -> bool {
    let done =
        b"\x11\x03\0\0\0\0\0\0\0\x05\0\0\0\0\0\0\0\0\x08\x01\0\0\0\0\0\0\0\x06\x01\0\0\0\0\0\0\0";
    answers(rt, library, 11, one, 0, b"\x07")
        && answers(rt, library, 15, steps, 0, done)
        && is_refused(rt, library, steps)
        && answers(rt, library, 8, one, 0, b"\x05\x01\0\0\0\0\0\0\0")
}

/// Whether a transaction of one call is refused behind its BEGIN: its last reply is that of ROLLBACK.
fn is_refused(rt: HostRuntime, library: &mut Library, steps: &[u8]) -> bool {
    let mut buf = [0u8; 256];
    let mut len = 0;
    let status = serve(library, rt.alloc(), 15, steps, &mut buf, &mut len);
    status == 1
        && 19 < len
        && len <= 256
        && &buf[..18] == b"\x11\x03\0\0\0\0\0\0\0\x05\x01\0\0\0\0\0\0\0".as_slice()
        && buf[18] == 15
        && buf[len - 1] == 7
}

#[test]
fn several_statements(rt: HostRuntime) -> Result<(), Fail> {
    let alloc = rt.alloc();
    let definitions = numbered(alloc, &[100], DEFS.as_bytes())?;
    let one = 1u64.to_le_bytes();
    let two = steps_with(alloc, &[1, 2])?;
    let other = steps_with(alloc, &[3])?;
    let mut library = open(alloc, &definitions);
    let told = begins(rt, &mut library, &one)
        && inserts_twice(rt, &mut library, &two)
        && transacts_twice(rt, &mut library, &one, &other);
    drop(library);
    assert!(rt; told);
    Ok(())
}

/// So many zeros stand behind a new journal.
const ROOM: usize = 512;

/// The bytes of the journal's beginning that a library answers for these definitions.
fn image_of(rt: HostRuntime, library: &mut Library, definitions: &[u8]) -> Result<Vec<u8>, Fail> {
    let mut buf = [0u8; 512];
    let mut len = 0;
    let status = serve(library, rt.alloc(), 16, definitions, &mut buf, &mut len);
    let mut image = Vec::new(rt.alloc());
    if status == 0 && 9 < len && len <= 512 && buf[0] == 19 {
        image.extend_from_slice(&buf[9..len])?;
    }
    Ok(image)
}

/// The bytes of a new journal of these definitions, and how many of them stand in front of its zeros.
fn new_journal(rt: HostRuntime) -> Result<(Vec<u8>, usize), Fail> {
    let definitions = numbered(rt.alloc(), &[100], DEFS.as_bytes())?;
    let mut library = open(rt.alloc(), &definitions);
    let image = image_of(rt, &mut library, DEFS.as_bytes());
    drop(library);
    let mut file = image?;
    let length = file.len();
    file.extend_from_slice(&[0u8; ROOM])?;
    Ok((file, length))
}

/// The number at a place.
fn number_at(bytes: &[u8], at: usize) -> usize {
    let [low, high, ..] = bytes.get(at..).unwrap_or_default() else {
        return 0;
    };
    *low as usize + 256 * (*high as usize)
}

/// Makes the one call in front on a file: a write, zeros, or a sync. So many bytes it had, and none is told where it is
/// no such call.
fn make_one(file: &mut Vec<u8>, calls: &[u8]) -> usize {
    let (kind, at, count) = (
        number_at(calls, 0),
        number_at(calls, 8),
        number_at(calls, 16),
    );
    if kind == 3 {
        return 8;
    }
    for place in 0..count {
        let byte = if kind == 1 {
            calls.get(place.saturating_add(24))
        } else {
            Some(&0)
        };
        let (Some(byte), Some(old)) = (byte, file.get_mut(at.saturating_add(place))) else {
            return calls.len();
        };
        *old = *byte;
    }
    if kind == 1 {
        count.saturating_add(24)
    } else {
        24
    }
}

/// Makes calls on a file, in their order.
fn make_all(file: &mut Vec<u8>, calls: &[u8]) {
    let mut rest = calls;
    for _ in 0..calls.len() {
        if rest.is_empty() {
            return;
        }
        let done = make_one(file, rest);
        rest = rest.get(done..).unwrap_or_default();
    }
}

/// Takes the calls that wait, and makes them on a file. The last has to be a sync.
fn are_made(library: &mut Library, file: &mut Vec<u8>, least: usize) -> bool {
    let mut buf = [0u8; 512];
    let mut len = 0;
    let taken = take_calls(library, &mut buf, &mut len);
    if taken != 0 || len > 512 || len < least || len < 8 {
        return false;
    }
    make_all(file, &buf[..len]);
    buf[len - 8] == 3 && take_calls(library, &mut buf, &mut len) == 0 && len == 0
}

/// Executes a text in the session 1.
fn executes(
    rt: HostRuntime,
    library: &mut Library,
    one: &[u8],
    text: &str,
    reply: &[u8],
) -> Result<bool, Fail> {
    let mut request = Vec::new(rt.alloc());
    request.extend_from_slice(one)?;
    request.extend_from_slice(text.as_bytes())?;
    Ok(answers(rt, library, 7, &request, 0, reply))
}

/// Opens a session on a new journal, and commits a row.
fn commits_a_row(rt: HostRuntime, library: &mut Library, file: &mut Vec<u8>) -> Result<bool, Fail> {
    let one = 1u64.to_le_bytes();
    let mut buf = [0u8; 8];
    let mut len = 0;
    // (the zeros behind the image are written again, and synced)
    let waits = take_calls(library, &mut buf, &mut len) == 1 && len == 32;
    let made = are_made(library, file, 32) && begins(rt, library, &one);
    let inserted = executes(
        rt,
        library,
        &one,
        "INSERT INTO DUTY VALUES (1, NULL)",
        b"\x08\x01\0\0\0\0\0\0\0",
    )?;
    let told = answers(rt, library, 10, &one, 0, b"\x06\x01\0\0\0\0\0\0\0");
    Ok(waits && made && inserted && told && are_made(library, file, 40))
}

/// Whether the keys of the rows are 1 and 5.
fn has_both_rows(rt: HostRuntime, library: &mut Library) -> Result<bool, Fail> {
    let one = 1u64.to_le_bytes();
    let begun = begins(rt, library, &one);
    let rows = numbered(rt.alloc(), &[1, 2], b"ID")?;
    let mut reply = numbered(rt.alloc(), &[], b"\x0b")?;
    reply.extend_from_slice(&rows)?;
    reply.extend_from_slice(&numbered(rt.alloc(), &[2], b"\x01")?)?;
    reply.extend_from_slice(&numbered(rt.alloc(), &[1], b"\x01")?)?;
    reply.extend_from_slice(&numbered(rt.alloc(), &[5], b"")?)?;
    Ok(begun && executes(rt, library, &one, "SELECT ID FROM DUTY", &reply)?)
}

/// A journal with the row 1 committed, and where its line begins; no bytes where it was not.
fn journal_of_a_row(rt: HostRuntime) -> Result<(Vec<u8>, usize), Fail> {
    let definitions = numbered(rt.alloc(), &[100], DEFS.as_bytes())?;
    let (mut file, length) = new_journal(rt)?;
    let dropping = numbered(rt.alloc(), &[0, 1], b"\x02\x01\0\0\0\0\0\0\0X")?;
    let mut library = open_journal(rt.alloc(), &definitions, &file);
    let committed = commits_a_row(rt, &mut library, &mut file);
    // (no rules are changed on a journal, and nothing waits then)
    let kept = answers(rt, &mut library, 13, &dropping, 13, b"\0");
    drop(library);
    if !(committed? && kept) {
        file.clear();
    }
    Ok((file, length))
}

#[test]
fn a_commit_outlives_its_library(rt: HostRuntime) -> Result<(), Fail> {
    let alloc = rt.alloc();
    let definitions = numbered(alloc, &[100], DEFS.as_bytes())?;
    let (file, _) = journal_of_a_row(rt)?;
    let mut library = open_journal(alloc, &definitions, &file);
    let found = has_both_rows(rt, &mut library);
    drop(library);
    assert!(rt; found?);
    Ok(())
}

/// Commits a row, and gives the beginning of a journal of the committed tables, in which the library goes on then; no
/// bytes where it does not. In its own file, which has more, and in none it may not.
fn moves_on(rt: HostRuntime, library: &mut Library, file: &mut Vec<u8>) -> Result<Vec<u8>, Fail> {
    let mut headless = numbered(rt.alloc(), &[], b"\x12")?;
    headless.extend_from_slice(&numbered(rt.alloc(), &[1, 0, 0], b"")?)?;
    let committed = commits_a_row(rt, library, file)?;
    let image = image_of(rt, library, DEFS.as_bytes())?;
    let refused = answers(rt, library, 17, b"", 14, &headless)
        && answers(rt, library, 17, file, 4, b"\0");
    let moved = answers(rt, library, 17, &image, 0, b"\x01\x01\0\0\0\0\0\0\0");
    if committed && refused && moved {
        Ok(image)
    } else {
        Ok(Vec::new(rt.alloc()))
    }
}

#[test]
fn commits_go_on_in_another_file(rt: HostRuntime) -> Result<(), Fail> {
    let alloc = rt.alloc();
    let definitions = numbered(alloc, &[100], DEFS.as_bytes())?;
    let (mut file, _) = new_journal(rt)?;
    let mut library = open_journal(alloc, &definitions, &file);
    let moved = moves_on(rt, &mut library, &mut file);
    drop(library);
    let image = moved?;
    let mut library = open_journal(alloc, &definitions, &image);
    let found = has_both_rows(rt, &mut library);
    drop(library);
    assert!(rt; found?);
    Ok(())
}

/// Whether a journal's bytes are refused, with these numbers in the reply, and there is no database then.
fn is_unrestored(
    rt: HostRuntime,
    definitions: &[u8],
    file: &[u8],
    why: &[u64],
) -> Result<bool, Fail> {
    let mut reply = numbered(rt.alloc(), &[], b"\x12")?;
    reply.extend_from_slice(&numbered(rt.alloc(), why, b"")?)?;
    let mut library = open_journal(rt.alloc(), definitions, file);
    let told = answers(rt, &mut library, 0, b"", 14, &reply)
        && answers(rt, &mut library, 2, b"bob", 11, b"\0");
    drop(library);
    Ok(told)
}

#[test]
fn a_file_that_says_nothing_is_refused(rt: HostRuntime) -> Result<(), Fail> {
    let definitions = numbered(rt.alloc(), &[100], DEFS.as_bytes())?;
    let (mut file, line) = journal_of_a_row(rt)?;
    let mut others = numbered(rt.alloc(), &[], &definitions)?;
    others.push(b' ')?;
    let headless = is_unrestored(rt, &definitions, b"", &[1, 0, 0])?;
    let of_others = is_unrestored(rt, &others, &file, &[2, 0, 0])?;
    if let Some(byte) = file.get_mut(line.saturating_add(5)) {
        *byte = 33;
    }
    let damaged = is_unrestored(rt, &definitions, &file, &[3, 1, line as u64])?;
    assert!(rt; headless && of_others && damaged);
    Ok(())
}

#[test]
fn without_a_journal_nothing_waits(rt: HostRuntime) -> Result<(), Fail> {
    let definitions = numbered(rt.alloc(), &[100], DEFS.as_bytes())?;
    let mut library = open(rt.alloc(), &definitions);
    let (mut buf, mut len) = ([0u8; 8], 7);
    let none = take_calls(&mut library, &mut buf, &mut len) == 0 && len == 0;
    drop(library);
    assert!(rt; none);
    Ok(())
}
