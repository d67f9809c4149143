//! Statements and events with values in the places of their parameters.

ghost use Rattle.std.specs.Prelude.{◌≡◌, ◌≢◌, IfOk, IfErr, Ok, Err};
ghost use Rattle.prepared.specs.declared.faults.FillFault.TheVariants.{NoMemory};
ghost use Rattle.prepared.specs.Statements as spec;
ghost use Rattle.syntax.specs.declared.statements.Statement.TheVariants as s;

use crate::conditions::{fill_condition, fill_expression};
use crate::constants::Constants;
use crate::copies::{
    copy_columns, copy_grouping_columns, copy_name, copy_which, drop_and_fail, put_behind,
};
use crate::faults::FillFault;
use sqlite_items::{Boxed, Items};
use std::alloc::Global;
use syntax::{
    Assignment, Condition, DerivedColumn, Event, Expression, Insert, Select, Statement,
    UpdateSource,
};
use value::{Text, Value};

/// A value of an INSERT.
fn fill_value(value: &Value, constants: &mut Constants) -> Result<Value, FillFault>
    ensures made { IfOk result (λ made. spec.filled_value value.now constants.old ≡ Ok (made, constants.new)) }
    ensures refused { IfErr result (λ fault. fault ≢ NoMemory → spec.filled_value value.now constants.old ≡ Err fault) }
{
    match value {
        Value::Null => Ok(Value::Null),
        Value::Text(text) => Ok(Value::Text(text.copy()?)),
        Value::Int(number) => constants.constant(*number),
    }
}

/// The values of a row of an INSERT, from the left.
#[tactic(auto, using(crate::proofs::Parts::so_far_next, crate::proofs::Parts::so_far_none))]
fn fill_values(
    alloc: Global,
    values: &[Value],
    constants: &mut Constants,
) -> Result<Items<Value>, FillFault>
    ensures made { IfOk result (λ made. spec.filled_values values.now constants.old ≡ Ok (made, constants.new)) }
    ensures refused { IfErr result (λ fault. fault ≢ NoMemory
        → spec.filled_values values.now constants.old ≡ Err fault) }
{
    let mut made = Vec::new(alloc);
    for value in values {
        made.push(fill_value(value, constants)?)?;
    }
    Ok(Items::from_vec(made))
}

/// The rows of an INSERT, in the order of the text.
#[tactic(auto, using(crate::proofs::Parts::so_far_next, crate::proofs::Parts::so_far_none))]
fn fill_rows(
    alloc: Global,
    rows: &[Items<Value>],
    constants: &mut Constants,
) -> Result<Items<Items<Value>>, FillFault>
    ensures made { IfOk result (λ made. spec.filled_rows rows.now constants.old ≡ Ok (made, constants.new)) }
    ensures refused { IfErr result (λ fault. fault ≢ NoMemory → spec.filled_rows rows.now constants.old ≡ Err fault) }
{
    let mut made = Vec::new(alloc);
    for row in rows {
        made = match fill_values(alloc, row.as_slice(), constants) {
            Ok(values) => put_behind(made, values)?,
            Err(fault) => return Err(drop_and_fail(fault, made)),
        };
    }
    Ok(Items::from_vec(made))
}

/// An INSERT.
fn fill_insert(
    alloc: Global,
    insert: &Insert,
    constants: &mut Constants,
) -> Result<Insert, FillFault>
    ensures made { IfOk result (λ made. spec.filled_insert insert.now constants.old ≡ Ok (made, constants.new)) }
    ensures refused { IfErr result (λ fault. fault ≢ NoMemory
        → spec.filled_insert insert.now constants.old ≡ Err fault) }
{
    let table = insert.table.copy()?;
    let columns = copy_columns(alloc, &insert.columns)?;
    let rows = fill_rows(alloc, insert.rows.as_slice(), constants)?;
    Ok(Insert {
        table,
        columns,
        rows,
    })
}

/// What an UPDATE gives to a column. A parameter that is all of it may be NULL.
fn fill_assigned(
    alloc: Global,
    assigned: &UpdateSource,
    constants: &mut Constants,
) -> Result<UpdateSource, FillFault>
    ensures made { IfOk result (λ made. spec.filled_assigned assigned.now constants.old ≡ Ok (made, constants.new)) }
    ensures refused { IfErr result (λ fault. fault ≢ NoMemory
        → spec.filled_assigned assigned.now constants.old ≡ Err fault) }
{
    match assigned {
        UpdateSource::Null => Ok(UpdateSource::Null),
        UpdateSource::To(Expression::Number(number)) => constants.assigned(*number),
        UpdateSource::To(expression) => {
            Ok(UpdateSource::To(fill_expression(alloc, expression, constants)?))
        }
    }
}

/// A column of an UPDATE, and what is given to it.
fn fill_assignment(
    alloc: Global,
    assignment: &Assignment,
    constants: &mut Constants,
) -> Result<Assignment, FillFault>
    ensures made { IfOk result (λ made.
        spec.filled_assignment assignment.now constants.old ≡ Ok (made, constants.new)) }
    ensures refused { IfErr result (λ fault. fault ≢ NoMemory
        → spec.filled_assignment assignment.now constants.old ≡ Err fault) }
{
    let column = assignment.column.copy()?;
    let value = fill_assigned(alloc, &assignment.value, constants)?;
    Ok(Assignment { column, value })
}

/// The columns of an UPDATE, from the left.
#[tactic(auto, using(crate::proofs::Parts::so_far_next, crate::proofs::Parts::so_far_none))]
fn fill_assignments(
    alloc: Global,
    assignments: &[Assignment],
    constants: &mut Constants,
) -> Result<Items<Assignment>, FillFault>
    ensures made { IfOk result (λ made.
        spec.filled_assignments assignments.now constants.old ≡ Ok (made, constants.new)) }
    ensures refused { IfErr result (λ fault. fault ≢ NoMemory
        → spec.filled_assignments assignments.now constants.old ≡ Err fault) }
{
    let mut made = Vec::new(alloc);
    for assignment in assignments {
        made = match fill_assignment(alloc, assignment, constants) {
            Ok(assignment) => put_behind(made, assignment)?,
            Err(fault) => return Err(drop_and_fail(fault, made)),
        };
    }
    Ok(Items::from_vec(made))
}

/// The condition of a statement's WHERE or HAVING, if there is one.
fn fill_filter(
    alloc: Global,
    keeps: &Option<Boxed<Condition>>,
    constants: &mut Constants,
) -> Result<Option<Boxed<Condition>>, FillFault>
    ensures made { IfOk result (λ made. spec.filled_filter keeps.now constants.old ≡ Ok (made, constants.new)) }
    ensures refused { IfErr result (λ fault.
        fault ≢ NoMemory → spec.filled_filter keeps.now constants.old ≡ Err fault) }
{
    match keeps {
        None => Ok(None),
        Some(condition) => {
            let condition = fill_condition(alloc, condition.get(), constants)?;
            Ok(Some(Boxed::new(alloc, condition)?))
        }
    }
}

/// An UPDATE of a table.
fn fill_update(
    alloc: Global,
    table: &Text,
    sets: &[Assignment],
    keeps: &Option<Boxed<Condition>>,
    constants: &mut Constants,
) -> Result<Statement, FillFault>
    ensures made { IfOk result (λ made. spec.filled_statement (s.Update table.now sets.now keeps.now)
        constants.old ≡ Ok (made, constants.new)) }
    ensures refused { IfErr result (λ fault. fault ≢ NoMemory
        → spec.filled_statement (s.Update table.now sets.now keeps.now) constants.old ≡ Err fault) }
{
    let table = table.copy()?;
    let sets = fill_assignments(alloc, sets, constants)?;
    match fill_filter(alloc, keeps, constants) {
        Ok(keeps) => Ok(Statement::Update { table, sets, keeps }),
        Err(fault) => Err(drop_and_fail(fault, sets)),
    }
}

/// A derived column of a SELECT.
fn fill_derived_column(
    alloc: Global,
    column: &DerivedColumn,
    constants: &mut Constants,
) -> Result<DerivedColumn, FillFault>
    ensures made { IfOk result (λ made.
        spec.filled_derived_column column.now constants.old ≡ Ok (made, constants.new)) }
    ensures refused { IfErr result (λ fault. fault ≢ NoMemory
        → spec.filled_derived_column column.now constants.old ≡ Err fault) }
{
    let name = copy_name(&column.name)?;
    let value = fill_expression(alloc, &column.value, constants)?;
    Ok(DerivedColumn { value, name })
}

/// The derived columns of a SELECT, from the left.
#[tactic(auto, using(crate::proofs::Parts::so_far_next, crate::proofs::Parts::so_far_none))]
fn fill_derived_columns(
    alloc: Global,
    columns: &[DerivedColumn],
    constants: &mut Constants,
) -> Result<Items<DerivedColumn>, FillFault>
    ensures made { IfOk result (λ made.
        spec.filled_derived_columns columns.now constants.old ≡ Ok (made, constants.new)) }
    ensures refused { IfErr result (λ fault. fault ≢ NoMemory
        → spec.filled_derived_columns columns.now constants.old ≡ Err fault) }
{
    let mut made = Vec::new(alloc);
    for column in columns {
        made = match fill_derived_column(alloc, column, constants) {
            Ok(column) => put_behind(made, column)?,
            Err(fault) => return Err(drop_and_fail(fault, made)),
        };
    }
    Ok(Items::from_vec(made))
}

/// What a SELECT lists: columns, if they are written.
fn fill_selected(
    alloc: Global,
    columns: &Option<Items<DerivedColumn>>,
    constants: &mut Constants,
) -> Result<Option<Items<DerivedColumn>>, FillFault>
    ensures made { IfOk result (λ made. spec.filled_selected columns.now constants.old ≡ Ok (made, constants.new)) }
    ensures refused { IfErr result (λ fault. fault ≢ NoMemory
        → spec.filled_selected columns.now constants.old ≡ Err fault) }
{
    match columns {
        None => Ok(None),
        Some(columns) => Ok(Some(fill_derived_columns(alloc, columns.as_slice(), constants)?)),
    }
}

/// A SELECT of a table: its list, WHERE and HAVING.
fn fill_select(
    alloc: Global,
    select: &Select,
    constants: &mut Constants,
) -> Result<Select, FillFault>
    ensures made { IfOk result (λ made. spec.filled_select select.now constants.old ≡ Ok (made, constants.new)) }
    ensures refused { IfErr result (λ fault. fault ≢ NoMemory
        → spec.filled_select select.now constants.old ≡ Err fault) }
{
    let table = select.table.copy()?;
    let correlation_name = copy_name(&select.correlation_name)?;
    let group_by = copy_grouping_columns(alloc, &select.group_by)?;
    let columns = fill_selected(alloc, &select.columns, constants)?;
    let keeps = match fill_filter(alloc, &select.keeps, constants) {
        Ok(keeps) => keeps,
        Err(fault) => return Err(drop_and_fail(fault, columns)),
    };
    match fill_filter(alloc, &select.having, constants) {
        Ok(having) => Ok(Select {
            columns,
            table,
            correlation_name,
            keeps,
            group_by,
            having,
        }),
        Err(fault) => Err(drop_and_fail(fault, (columns, keeps))),
    }
}

/// A statement.
fn fill_statement(
    alloc: Global,
    statement: &Statement,
    constants: &mut Constants,
) -> Result<Statement, FillFault>
    ensures made { IfOk result (λ made. spec.filled_statement statement.now constants.old ≡ Ok (made, constants.new)) }
    ensures refused { IfErr result (λ fault. fault ≢ NoMemory
        → spec.filled_statement statement.now constants.old ≡ Err fault) }
{
    match statement {
        Statement::Insert(insert) => Ok(Statement::Insert(fill_insert(alloc, insert, constants)?)),
        Statement::Update { table, sets, keeps } => {
            fill_update(alloc, table, sets.as_slice(), keeps, constants)
        }
        Statement::Delete { table, keeps } => {
            let table = table.copy()?;
            let keeps = fill_filter(alloc, keeps, constants)?;
            Ok(Statement::Delete { table, keeps })
        }
        Statement::Select(select) => Ok(Statement::Select(fill_select(alloc, select, constants)?)),
        Statement::SetConstraints { assertions, mode } => {
            let assertions = copy_which(alloc, assertions)?;
            Ok(Statement::SetConstraints {
                assertions,
                mode: *mode,
            })
        }
        Statement::Verdict(name) => Ok(Statement::Verdict(name.copy()?)),
    }
}

/// The event with the next values in the places of its parameters.
///
/// # Errors
///
/// The fault of the first parameter whose value may not stand there, or NoMemory.
pub fn fill_event(
    alloc: Global,
    event: &Event,
    constants: &mut Constants,
) -> Result<Event, FillFault>
    ensures made { IfOk result (λ made. spec.filled_event event.now constants.old ≡ Ok (made, constants.new)) }
    ensures refused { IfErr result (λ fault. fault ≢ NoMemory → spec.filled_event event.now constants.old ≡ Err fault) }
{
    match event {
        Event::Begin => Ok(Event::Begin),
        Event::BeginReadOnly => Ok(Event::BeginReadOnly),
        Event::Commit => Ok(Event::Commit),
        Event::Rollback => Ok(Event::Rollback),
        Event::Run(statement) => Ok(Event::Run(fill_statement(alloc, statement, constants)?)),
    }
}
