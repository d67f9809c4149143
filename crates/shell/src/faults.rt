//! Why the shell did not come to its end.

ghost use Rattle.std.specs.Prelude.{◌≡◌};
ghost use Rattle.replay.specs.declared.faults.ProgramFault.TheVariants.{Output};
ghost use Rattle.shell.specs.declared.faults.ShellFault.TheVariants.{Run};

use replay::ProgramFault;
use std::io;
use thiserror::Error;

/// Why the shell did not come to its end.
#[derive(Debug, Drop, Error)]
pub enum ShellFault {
    /// The definitions were refused, or memory or the writer ended it, as [`ProgramFault`] says.
    #[error("{0}")]
    Run(ProgramFault),
    /// The reader failed. All events that came before were answered.
    #[error("the input can't be read")]
    Input,
}

impl From<io::Error> for ShellFault {
    ghost from_gives = { λ _ fault. fault ≡ Run Output };

    fn from(_error: io::Error) -> ShellFault {
        ShellFault::Run(ProgramFault::Output)
    }
}

/// Why a shell on a ledger did not come to its end.
#[derive(Debug, Drop, Error)]
pub enum LedgerFault {
    /// As without a journal.
    #[error("{0}")]
    Shell(ShellFault),
    /// Commits that share a sync could not be written. No answer that waited for it went out.
    #[error("the journal can't be written")]
    Journal,
}

impl From<io::Error> for LedgerFault {
    fn from(error: io::Error) -> LedgerFault {
        LedgerFault::Shell(ShellFault::from(error))
    }
}
