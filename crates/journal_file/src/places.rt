//! Files by their names: locked, and with their folder on the disk. All of this is trusted.
//!
//! A name stands for the file that had it, or for the one that it was given to, after a crash too, and for the latter
//! once its folder was synced. So that it stands for a whole file at each moment, it may be given to none that is not on
//! the disk: that is what [`replace`] and [`name`] require.

ghost use Rattle.journal_file.specs.Files.{IsOnDisk};

use crate::faults::OpenFault;
use crate::files::JournalFile;
use std::fs;
use std::fs::{File, OpenOptions};
use std::os::fd::AsRawFd;
use std::os::unix::fs::MetadataExt;
use std::path::Path;
use std::rt::Files;

/// Refuses what is no regular file, and a link to one.
fn require_regular<R: Files<File = File>>(rt: &R, path: &str) -> Result<(), OpenFault> {
    let named = fs::symlink_metadata(rt, path)?;
    if named.is_symlink() {
        Err(OpenFault::Link)
    } else if named.is_dir() {
        Err(OpenFault::Folder)
    } else if named.is_file() {
        Ok(())
    } else {
        Err(OpenFault::NotRegular)
    }
}

/// A file that no other process has locked, and that still has this name then: one that was opened just before
/// another took its place would be written to in vain.
fn locked<R: Files<File = File>>(rt: &R, path: &str, file: File) -> Result<File, OpenFault> {
    // What is meant for a standard stream that was closed must not land in the file.
    let file = if file.as_raw_fd() <= 2 {
        file.try_clone()?
    } else {
        file
    };
    file.try_lock()?;
    let (found, named) = (file.metadata()?, fs::symlink_metadata(rt, path)?);
    if found.dev() == named.dev() && found.ino() == named.ino() {
        Ok(file)
    } else {
        Err(OpenFault::InUse)
    }
}

/// Opens a file that is there.
pub(crate) fn open_locked<R: Files<File = File>>(rt: &R, path: &str) -> Result<File, OpenFault> {
    require_regular(rt, path)?;
    let file = OpenOptions::new().read(true).write(true).open(rt, path)?;
    locked(rt, path, file)
}

/// Makes a file where none is.
fn make_locked<R: Files<File = File>>(rt: &R, path: &str) -> Result<File, OpenFault> {
    let file = OpenOptions::new()
        .read(true)
        .write(true)
        .create_new(true)
        .open(rt, path)?;
    locked(rt, path, file)
}

/// Takes away what a killed process left under this name, and hands it out, still locked: as long as it is, no other
/// process takes the name too.
fn take_leftover<R: Files<File = File>>(rt: &R, path: &str) -> Result<Option<File>, OpenFault> {
    match open_locked(rt, path) {
        Ok(leftover) => {
            fs::remove_file(rt, path)?;
            Ok(Some(leftover))
        }
        Err(OpenFault::NotFound) => Ok(None),
        Err(fault) => Err(fault),
    }
}

/// Makes a file that is to take the place of an open one, and that as many may read.
pub(crate) fn make_beside<R: Files<File = File>>(
    rt: &R,
    draft: &str,
    old: &File,
) -> Result<File, OpenFault> {
    // (of a process that was killed; nobody else may use the name)
    let _ = fs::remove_file(rt, draft);
    let file = make_locked(rt, draft)?;
    file.set_permissions(old.metadata()?.permissions())?;
    Ok(file)
}

/// Makes a file that is to have a name which no file has.
pub(crate) fn make_alone<R: Files<File = File>>(rt: &R, draft: &str) -> Result<File, OpenFault> {
    let leftover = take_leftover(rt, draft)?;
    let file = make_locked(rt, draft)?;
    drop(leftover);
    Ok(file)
}

/// Gives a file its name in the place of the one that has it.
pub(crate) fn replace<R: Files<File = File>>(
    rt: &R,
    _file: &JournalFile<File>,
    draft: &str,
    path: &str,
) -> Result<(), OpenFault>
    requires durable { IsOnDisk _file.now }
{
    fs::rename(rt, draft, path)?;
    sync_folder(rt, path)
}

/// Gives a file a name that no file has: where one came meanwhile, a link fails, and a rename would take its place.
pub(crate) fn name<R: Files<File = File>>(
    rt: &R,
    _file: &JournalFile<File>,
    draft: &str,
    path: &str,
) -> Result<(), OpenFault>
    requires durable { IsOnDisk _file.now }
{
    fs::hard_link(rt, draft, path)?;
    fs::remove_file(rt, draft)?;
    sync_folder(rt, path)
}

/// The names in the folder of a file are on the disk then.
pub(crate) fn sync_folder<R: Files<File = File>>(rt: &R, path: &str) -> Result<(), OpenFault> {
    let folder = match Path::new(path).parent() {
        Some(folder) if !folder.as_str().is_empty() => folder.as_str(),
        _ => ".",
    };
    Ok(File::open(rt, folder)?.sync_all()?)
}
