//! Why a script did not come to its end.

ghost use Rattle.std.specs.Prelude.{◌≡◌};
ghost use Rattle.replay.specs.declared.faults.ProgramFault.TheVariants.{Output};

use std::io;
use thiserror::Error;
use value::Refusal;

/// Why a script did not come to its end.
#[derive(Debug, Drop, Error)]
pub enum ProgramFault {
    /// The definitions were refused, or there was no memory to read them or take them in. Nothing was run or written.
    #[error("the definitions were refused: {0}")]
    Defs(Refusal),
    /// The script was refused, or there was no memory to read it or to make ready for it. Nothing was run or written.
    #[error("the script was refused: {0}")]
    Script(Refusal),
    /// Memory ended the run: there was none for what was read. What the writer took before stands.
    #[error("memory ended the run")]
    Stopped,
    /// The writer failed. Of the bytes that went out before nothing is known.
    #[error("the output can't be written")]
    Output,
    /// A session of the script got no thread, or no place. The others were run, and the whole report was written.
    #[error("a session of the script was not run")]
    NoThread,
}

impl From<io::Error> for ProgramFault {
    ghost from_gives = { λ _ fault. fault ≡ Output };

    fn from(_error: io::Error) -> ProgramFault {
        ProgramFault::Output
    }
}
