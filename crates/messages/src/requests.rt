//! The requests of several fields.

ghost use Rattle.std.specs.Prelude.{◌≡◌};
ghost use Rattle.messages.specs.Reading.{Gives};
ghost use Rattle.messages.specs.Requests as spec;

use crate::faults::FieldFault;
use crate::reading::{read_number, read_some, read_text, read_values};
use sqlite_items::Items;
use std::alloc::Global;
use value::Value;

/// A prepared statement with its values, in a session.
#[derive(Drop)]
pub struct RunRequest {
    pub session: u64,
    pub statement: u64,
    pub values: Vec<Value>,
}

/// The number that is all of a request, if one is.
#[tactic(auto, unfolding(crate::specs::Requests::only_number))]
pub fn read_only_number(request: &[u8]) -> Option<u64>
    ensures { result ≡ spec.only_number request.now }
{
    let (number, rest) = read_number(request)?;
    if rest.is_empty() { Some(number) } else { None }
}

/// The fields of a request to run a statement.
#[tactic(auto, unfolding(crate::specs::Requests::run_request))]
pub fn read_run(alloc: Global, request: &[u8]) -> Result<RunRequest, FieldFault>
    ensures { Gives spec.run_fields result (spec.run_request request.now) }
{
    let Some((session, rest)) = read_number(request) else {
        return Err(FieldFault::Malformed);
    };
    let Some((statement, rest)) = read_number(rest) else {
        return Err(FieldFault::Malformed);
    };
    let values = read_values(alloc, rest)?;
    Ok(RunRequest {
        session,
        statement,
        values,
    })
}

/// The fields of a request for a checkpoint: the text of the rules to create, and the names of those to drop.
#[tactic(auto, unfolding(crate::specs::Requests::checkpoint_request))]
pub fn read_checkpoint(alloc: Global, request: &[u8]) -> Result<(&[u8], Vec<Value>), FieldFault>
    ensures { Gives (λ x. (x.0.now, x.1.items)) result (spec.checkpoint_request request.now) }
{
    let Some((created, rest)) = read_text(request) else {
        return Err(FieldFault::Malformed);
    };
    let dropped = read_values(alloc, rest)?;
    Ok((created, dropped))
}

/// A prepared statement with its values.
#[derive(Drop)]
pub struct Step {
    pub statement: u64,
    pub values: Items<Value>,
}

/// Prepared statements with their values, in a session.
#[derive(Drop)]
pub struct StepsRequest {
    pub session: u64,
    pub steps: Items<Step>,
}

/// The statement in front with its values, and the bytes behind them.
#[tactic(auto, unfolding(crate::specs::Requests::step_at))]
fn read_step(alloc: Global, bytes: &[u8]) -> Result<(Step, &[u8]), FieldFault>
    ensures { Gives (λ x. (x.0, x.1.now)) result (spec.step_at bytes.now) }
{
    let Some((statement, rest)) = read_number(bytes) else {
        return Err(FieldFault::Malformed);
    };
    let Some((count, rest)) = read_number(rest) else {
        return Err(FieldFault::Malformed);
    };
    let (values, rest) = read_some(alloc, count, rest)?;
    let values = Items::from_vec(values);
    Ok((Step { statement, values }, rest))
}

/// So many statements with their values, and the bytes behind them.
fn read_some_steps(
    alloc: Global,
    count: u64,
    bytes: &[u8],
) -> Result<(Vec<Step>, &[u8]), FieldFault>
    ensures { Gives (λ x. (x.0.items, x.1.now)) result (spec.steps_in count bytes.now) }
{
    let mut steps = Vec::new(alloc);
    let mut rest = bytes;
    for _ in 0..count {
        let (step, behind) = read_step(alloc, rest)?;
        steps.push(step)?;
        rest = behind;
    }
    Ok((steps, rest))
}

/// The fields of a request to run several statements.
#[tactic(auto, unfolding(crate::specs::Requests::steps_request))]
pub fn read_steps(alloc: Global, request: &[u8]) -> Result<StepsRequest, FieldFault>
    ensures { Gives (λ x. x) result (spec.steps_request request.now) }
{
    let Some((session, rest)) = read_number(request) else {
        return Err(FieldFault::Malformed);
    };
    let Some((count, rest)) = read_number(rest) else {
        return Err(FieldFault::Malformed);
    };
    let (steps, rest) = read_some_steps(alloc, count, rest)?;
    if !rest.is_empty() {
        return Err(FieldFault::Malformed);
    }
    let steps = Items::from_vec(steps);
    Ok(StepsRequest { session, steps })
}
