//! The texts that the tests share: an assertion, the definitions of a history, and the line of a fault.

use histories::{History, TABLES};
use replay::ProgramFault;
use report::write_refusal;
use std::alloc::Global;
use std::test::Fail;

/// No owner's accounts sum below zero.
pub const FUNDS: &str =
    "CREATE ASSERTION FUNDS CHECK (NOT EXISTS (SELECT OWNER FROM ACCT GROUP BY OWNER HAVING SUM(BAL) < 0));";

/// The tables of a history, and what stands behind them.
pub fn defs_of(alloc: Global, history: &History) -> Result<String, Fail> {
    let behind = history.definitions_behind(alloc)?;
    Ok(format!(in alloc; "{TABLES}{behind}")?)
}

/// The line that says why there is no report.
pub fn line_of(alloc: Global, fault: ProgramFault) -> Result<Vec<u8>, Fail> {
    let mut line = Vec::new(alloc);
    match fault {
        ProgramFault::Defs(refusal) => write_refusal("DEFS", &refusal, &mut line)?,
        ProgramFault::Script(refusal) => write_refusal("SCRIPT", &refusal, &mut line)?,
        ProgramFault::Stopped => return Err(Fail::from("memory ended the run")),
        ProgramFault::Output => return Err(Fail::from("the writer took no bytes")),
        ProgramFault::NoThread => return Err(Fail::from("a session was not run")),
    }
    Ok(line)
}
