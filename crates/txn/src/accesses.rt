//! How a transaction begins.

ghost use Rattle.std.specs.Prelude.{◌≡◌};
ghost use Rattle.txn.specs.Transactions.{reads_only};

/// The access mode of a transaction (ISO/IEC 9075:1992, 14.1).
#[derive(Clone, Copy, Debug, PartialEq, Eq)]
pub enum Access {
    /// BEGIN.
    ReadWrite,
    /// BEGIN READ ONLY: INSERT, UPDATE and DELETE are refused. The transaction may stand earlier in the serial order,
    /// so that fewer commits are refused for it, itself among them.
    ReadOnly,
}

impl Access {
    /// Whether INSERT, UPDATE and DELETE are refused.
    pub fn is_read_only(self) -> bool
        ensures { result ≡ reads_only self }
    {
        match self {
            Access::ReadWrite => false,
            Access::ReadOnly => true,
        }
    }
}
