//! A doctor's wish to go off call, and who is on call.

use alone::{Reply, ResultValue};
use session::{Access, Manager, Named, Receipt, Session, release, release_refused};
use std::sync::Wait;
use syntax::Statement;
use value::Refusal;

/// So often is the transaction tried. Each refusal for what others did means that another transaction was committed
/// since it began, and no more than three doctors can go off call.
const ATTEMPTS: u32 = 4;

/// What came of a wish.
#[derive(Drop)]
pub enum Ending<N: Named> {
    /// Off call, by this commit.
    OffCall(Receipt<N>),
    /// Still on call, since nobody else is.
    OnCall,
    /// Not asked for, or refused each time for what others did.
    Open,
}

/// Runs what the doctor wishes in a transaction, and again where others were in its way.
///
/// # Errors
///
/// Whatever else the wish, BEGIN or COMMIT is refused for.
pub fn go_off_call<N: Named, R: Wait>(
    rt: &R,
    manager: &Manager<N>,
    session: &mut Session<N>,
    wish: &Statement,
) -> Result<Ending<N>, Refusal> {
    let ending = retry(ATTEMPTS, || attempt(rt, manager, session, wish))?;
    Ok(ending.unwrap_or(Ending::Open))
}

/// Calls what runs a transaction once, and calls it again where it answers with nothing, since others were in its way;
/// at most so many times.
fn retry<T, F: FnMut() -> Result<Option<T>, Refusal>>(
    attempts: u32,
    mut attempt: F,
) -> Result<Option<T>, Refusal>
    requires { F.IsAlwaysCallable attempt }
{
    for _ in 0..attempts {
        if let Some(done) = attempt()? {
            return Ok(Some(done));
        }
    }
    Ok(None)
}

/// One transaction. None where others were in its way.
fn attempt<N: Named, R: Wait>(
    rt: &R,
    manager: &Manager<N>,
    session: &mut Session<N>,
    wish: &Statement,
) -> Result<Option<Ending<N>>, Refusal> {
    let mut txn = manager.begin(rt, session, Access::ReadWrite)?;
    if let Err(refusal) = txn.execute(wish) {
        release(rt, manager, txn);
        return match refusal {
            Refusal::Violated { .. } => Ok(Some(Ending::OnCall)),
            refusal => Err(refusal),
        };
    }
    match manager.commit(rt, session, txn) {
        Ok(receipt) => Ok(Some(Ending::OffCall(receipt))),
        Err(fault) => {
            let others = fault.is_retryable();
            let refusal = release_refused(rt, manager, fault);
            if others { Ok(None) } else { Err(refusal) }
        }
    }
}

/// Runs one statement in a transaction of its own, once.
///
/// # Errors
///
/// Whatever the statement, BEGIN or COMMIT is refused for. The transaction has then ended.
pub fn run_once<N: Named, R: Wait>(
    rt: &R,
    manager: &Manager<N>,
    session: &mut Session<N>,
    statement: &Statement,
) -> Result<Reply, Refusal> {
    let mut txn = manager.begin(rt, session, Access::ReadWrite)?;
    let reply = match txn.execute(statement) {
        Ok(reply) => reply,
        Err(refusal) => {
            release(rt, manager, txn);
            return Err(refusal);
        }
    };
    match manager.commit(rt, session, txn) {
        Ok(_receipt) => Ok(reply),
        Err(fault) => Err(release_refused(rt, manager, fault)),
    }
}

/// The first values of the rows of a reply, summed up. NULL and texts count for nothing.
pub fn sum_of(reply: &Reply) -> i128 {
    let mut sum = 0i128;
    if let Reply::Rows(rows) = reply {
        for row in rows.as_slice() {
            if let Some(ResultValue::Number(number)) = row.values().first() {
                sum = sum.saturating_add(*number);
            }
        }
    }
    sum
}
