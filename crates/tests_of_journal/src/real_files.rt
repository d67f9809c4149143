//! Journals' files in a folder: made, opened again, replaced, and refused.

use journal::Device;
use journal_file::{JournalFile, OpenFault, write_new};
use std::fs;
use std::os::unix::fs::{PermissionsExt, symlink};
use std::test::Fail;

/// A folder of its own for a test, empty.
fn make_folder(rt: &HostRuntime, folder: &str) -> Result<(), Fail> {
    let _ = fs::remove_dir_all(rt, folder);
    fs::create_dir(rt, folder)?;
    Ok(())
}

/// Whether a file may not be opened, and why not.
fn refusal(rt: &HostRuntime, path: &str) -> Option<OpenFault> {
    match JournalFile::open(rt, path) {
        Ok(_) => None,
        Err(fault) => Some(fault),
    }
}

#[test]
fn a_new_file_is_read_again(rt: HostRuntime) -> Result<(), Fail> {
    make_folder(&rt, "new_journal")?;
    let path = "new_journal/a";
    assert!(rt; matches!(refusal(&rt, path), Some(OpenFault::NotFound)));
    let file = write_new(&rt, path, None, b"head\n1\n", 20_000)?;
    assert!(rt; matches!(refusal(&rt, path), Some(OpenFault::InUse)));
    drop(file);
    let (file, bytes) = JournalFile::open(&rt, path)?;
    assert_eq!(rt; bytes.len(), 20_007);
    assert!(rt; bytes.starts_with(b"head\n1\n\0"));
    assert_eq!(rt; bytes.last(), Some(&0));
    assert!(rt; !fs::exists(&rt, "new_journal/a.new")?);
    drop(file);
    fs::remove_dir_all(&rt, "new_journal")?;
    Ok(())
}

#[test]
fn calls_are_behind_the_base(rt: HostRuntime) -> Result<(), Fail> {
    make_folder(&rt, "base_journal")?;
    let path = "base_journal/a";
    let file = write_new(&rt, path, None, b"head", 4)?;
    let mut file = file.behind(4);
    file.write_at(1, b"xy")?;
    file.grow(9000)?;
    file.sync()?;
    assert!(rt; file.failure().is_none());
    drop(file);
    let bytes = fs::read(&rt, path)?;
    assert!(rt; bytes.starts_with(b"head\0xy\0"));
    assert_eq!(rt; bytes.len(), 9008);
    fs::remove_dir_all(&rt, "base_journal")?;
    Ok(())
}

#[test]
fn another_file_takes_its_place(rt: HostRuntime) -> Result<(), Fail> {
    make_folder(&rt, "replaced_journal")?;
    let path = "replaced_journal/a";
    drop(write_new(&rt, path, None, b"old", 4)?);
    fs::set_permissions(&rt, path, fs::Permissions::from_mode(0o600))?;
    fs::write(
        &rt,
        "replaced_journal/a.new",
        b"left by a process that was killed".as_slice(),
    )?;
    let (old, _) = JournalFile::open(&rt, path)?;
    let new = write_new(&rt, path, Some(old), b"new", 1)?;
    assert!(rt; matches!(refusal(&rt, path), Some(OpenFault::InUse)));
    drop(new);
    assert_eq!(rt; fs::read(&rt, path)?.as_slice(), b"new\0".as_slice());
    assert_eq!(rt;
        fs::metadata(&rt, path)?.permissions().mode() & 0o777,
        0o600
    );
    assert!(rt; !fs::exists(&rt, "replaced_journal/a.new")?);
    fs::remove_dir_all(&rt, "replaced_journal")?;
    Ok(())
}

#[test]
fn what_another_process_made_stays(rt: HostRuntime) -> Result<(), Fail> {
    make_folder(&rt, "raced_journal")?;
    let path = "raced_journal/a";
    fs::write(&rt, path, b"made meanwhile".as_slice())?;
    let made = write_new(&rt, path, None, b"mine", 0);
    assert!(rt; matches!(made, Err(OpenFault::Exists)));
    assert_eq!(rt;
        fs::read(&rt, path)?.as_slice(),
        b"made meanwhile".as_slice()
    );
    fs::remove_file(&rt, path)?;
    let draft = fs::create(&rt, "raced_journal/a.new")?;
    assert!(rt; draft.try_lock().is_ok());
    let made = write_new(&rt, path, None, b"mine", 0);
    assert!(rt; matches!(made, Err(OpenFault::InUse)));
    assert!(rt; fs::exists(&rt, "raced_journal/a.new")?);
    drop(draft);
    drop(write_new(&rt, path, None, b"mine", 0)?);
    assert_eq!(rt; fs::read(&rt, path)?.as_slice(), b"mine".as_slice());
    fs::remove_dir_all(&rt, "raced_journal")?;
    Ok(())
}

#[test]
fn what_is_no_journal_is_refused(rt: HostRuntime) -> Result<(), Fail> {
    make_folder(&rt, "refused_journal")?;
    fs::create_dir(&rt, "refused_journal/folder")?;
    fs::write(&rt, "refused_journal/file", b"".as_slice())?;
    symlink(&rt, "file", "refused_journal/link")?;
    let folder = refusal(&rt, "refused_journal/folder");
    assert!(rt; matches!(folder, Some(OpenFault::Folder)));
    let link = refusal(&rt, "refused_journal/link");
    assert!(rt; matches!(link, Some(OpenFault::Link)));
    assert!(rt; refusal(&rt, "refused_journal/file").is_none());
    let lost = refusal(&rt, "refused_journal/none/file");
    assert!(rt; matches!(lost, Some(OpenFault::NotFound)));
    fs::remove_dir_all(&rt, "refused_journal")?;
    Ok(())
}
