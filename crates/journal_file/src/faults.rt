//! Why a journal's file was not opened, or not made.

use std::alloc::AllocError;
use std::fs::TryLockError;
use std::io;
use std::io::ErrorKind;
use thiserror::Error;

/// Why a journal's file was not opened, or not made. The file stands as it was, but for `write_new`, which says more.
#[derive(Debug, Drop, Error)]
pub enum OpenFault {
    /// No memory was left.
    #[error("out of memory")]
    NoMemory,
    /// There is no file of this name.
    #[error("there is no such file")]
    NotFound,
    /// A folder stands there.
    #[error("it is a folder")]
    Folder,
    /// A symbolic link stands there. A new file would take its place, and not that of the file where it leads.
    #[error("it is a symbolic link: name the file itself")]
    Link,
    /// A device, a pipe or a socket stands there.
    #[error("it is not a regular file")]
    NotRegular,
    /// Another process has the file open, or is making it.
    #[error("it is in use by another process")]
    InUse,
    /// This process may not read and write the file, or not its folder.
    #[error("{0}")]
    Denied(io::Error),
    /// A file of this name came while a new one was made for where there was none.
    #[error("a file of this name was made meanwhile")]
    Exists,
    /// The system failed, as it says.
    #[error("{0}")]
    Failed(io::Error),
}

impl From<io::Error> for OpenFault {
    fn from(error: io::Error) -> OpenFault {
        match error.kind() {
            ErrorKind::OutOfMemory => OpenFault::NoMemory,
            ErrorKind::NotFound => OpenFault::NotFound,
            ErrorKind::IsADirectory => OpenFault::Folder,
            ErrorKind::PermissionDenied => OpenFault::Denied(error),
            ErrorKind::AlreadyExists => OpenFault::Exists,
            _ => OpenFault::Failed(error),
        }
    }
}

impl From<AllocError> for OpenFault {
    fn from(_error: AllocError) -> OpenFault {
        OpenFault::NoMemory
    }
}

impl From<TryLockError> for OpenFault {
    fn from(error: TryLockError) -> OpenFault {
        match error {
            TryLockError::WouldBlock => OpenFault::InUse,
            TryLockError::Error(error) => OpenFault::Failed(error),
        }
    }
}
