//! Why the SQL was not printed.

ghost use Rattle.std.specs.Prelude.{◌≡◌, false};
ghost use Rattle.postgresql.specs.declared.faults.PrintFault.TheVariants.{NoMemory};

use printout::Unwritten;
use std::alloc::AllocError;
use thiserror::Error;
use value::Text;

/// Why the SQL was not printed whole.
#[derive(Debug, Drop, Error)]
pub enum PrintFault {
    /// PostgreSQL keeps 63 bytes of a name, so that two longer ones could become one. Nothing was written.
    #[error("the name {name} is longer than the 63 bytes that PostgreSQL keeps of a name")]
    LongName { name: Text },
    /// No memory was left. What the writer took before stands.
    #[error("no memory is left")]
    NoMemory,
    /// The writer failed. Of the bytes that went out before nothing is known.
    #[error("the output can't be written")]
    Output,
}

impl From<AllocError> for PrintFault {
    ghost from_gives = { λ _ fault. fault ≡ NoMemory };

    fn from(_error: AllocError) -> PrintFault {
        PrintFault::NoMemory
    }
}

impl From<Unwritten> for PrintFault {
    ghost use Rattle.postgresql.specs.Faults.{is_before_writing};

    ghost from_gives = { λ _ fault. is_before_writing fault ≡ false };

    fn from(unwritten: Unwritten) -> PrintFault {
        match unwritten {
            Unwritten::NoMemory => PrintFault::NoMemory,
            Unwritten::Output => PrintFault::Output,
        }
    }
}
