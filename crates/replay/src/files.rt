//! The bytes of files.

ghost use Rattle.std.specs.Prelude.{◌≡◌, ◌≢◌, IfOk, IfSome};
ghost use Rattle.std.specs.IoError.{error_kind};
ghost use Rattle.std.specs.declared.io.ErrorKind.TheVariants.{OutOfMemory};
ghost use Rattle.replay.specs.declared.files.ReadFault.TheVariants.{NoMemory, Unreadable};

use std::alloc::Global;
use std::io;
use std::io::{ErrorKind, Read};

/// Why the bytes of a file were not read.
#[derive(Clone, Copy, Debug, PartialEq, Eq)]
pub enum ReadFault {
    /// There is no such file, or it is a folder, or it may not be read, or reading it broke off.
    Unreadable,
    /// There was no memory for its bytes.
    NoMemory,
}

/// All bytes that a reader has left, up to its end.
///
/// # Errors
///
/// What the first fault of the reader says, or want of memory ([`fault_of`]). Nothing more is then read, and what was
/// read before is let go.
pub fn read_all<R: Read>(alloc: Global, reader: &mut R) -> Result<Vec<u8>, ReadFault>
    ensures { IfOk result (λ bytes. IfSome (R.remaining reader.old) (λ left. bytes.items ≡ left)) }
{
    let mut bytes = Vec::new(alloc);
    match reader.read_to_end(&mut bytes) {
        Ok(_) => Ok(bytes),
        Err(error) => Err(fault_of(&error)),
    }
}

/// What an error of the system says of a file.
pub fn fault_of(error: &io::Error) -> ReadFault
    ensures no_memory { error_kind error.now ≡ OutOfMemory → result ≡ NoMemory }
    ensures unreadable { error_kind error.now ≢ OutOfMemory → result ≡ Unreadable }
{
    if error.kind() == ErrorKind::OutOfMemory {
        ReadFault::NoMemory
    } else {
        ReadFault::Unreadable
    }
}
