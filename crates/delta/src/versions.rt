//! The tables and what is maintained for the assertions, at the start and after a change.

ghost use Rattle.std.specs.Prelude.{◌≡◌, ◌<◌, [], List, filter, map, length, not, slice_index_or, slice_set, IfOk};
ghost use Rattle.std.specs.Arc.{arc_value};
ghost use Rattle.std.specs.Str.{bytes_eq};
ghost use Rattle.value.specs.Ordered.{HasKey, IsAscending};
ghost use Rattle.value.specs.ValueOrder.{value_cmp};
ghost use Rattle.table.specs.Rows.{Layout, value_in, key_of};
ghost use Rattle.assertion.specs.Meaning.{rows_of};
ghost use Rattle.assertion.specs.Changes.{IsChangeOf};
ghost use Rattle.delta.specs.Maintained.{AreAllAlike, AreShort, AreWatched, IsGood, IsStep};
ghost use Rattle.delta.specs.Views.{AreBounded, IsFitting};

use crate::watches::{Watch, settle_watch, watch_after};
use assertion::{Assertion, Form, Link, Query};
use mvrows::Rows;
use std::alloc::{AllocError, Global};
use std::mem;
use std::sync::Arc;
use table::{Change, Schema, key_column};
use value::Text;

/// What is maintained for the assertions on these tables.
pub fn watches_of(
    alloc: Global,
    schemas: &[Schema],
    tables: &[Rows],
    assertions: &[Assertion],
) -> Result<Vec<Arc<Watch>>, AllocError>
    requires bounded { AreBounded assertions.now }
    requires good { IsGood schemas.now tables.now }
    ensures { IfOk result (λ made. AreWatched schemas.now tables.now assertions.now (length assertions.now)
        (map arc_value made.items)) }
{
    let mut made = Vec::with_capacity(alloc, assertions.len())?;
    for index in 0..assertions.len() {
        let watch = Watch::of(alloc, schemas, tables, &assertions[index].form)?;
        made.push(Arc::new(alloc, watch)?)?;
    }
    Ok(made)
}

/// The tables after a change.
pub fn tables_after(
    alloc: Global,
    schemas: &[Schema],
    tables: &[Rows],
    change: &Change,
) -> Result<Vec<Rows>, AllocError>
    requires good { IsGood schemas.now tables.now }
    requires is { IsChangeOf schemas.now change.now tables.now }
    requires fits { IsFitting schemas.now change.now }
    ensures { IfOk result (λ made. IsStep schemas.now change.now tables.now made.items) }
{
    let column = key_column(schemas, change.table);
    let made = copy_tables(alloc, tables)?;
    put_change(made, column, change)
}

/// Tables after a change, whose table has its keys in this column. Copies of them stay as they are; what no copy shares
/// is changed where it stands.
pub fn put_change(
    tables: Vec<Rows>,
    key_column: usize,
    change: &Change,
) -> Result<Vec<Rows>, AllocError>
    requires table_in { change.now.table < length tables.items }
    requires keyed { HasKey value_cmp (value_in key_column) change.now.key change.now.new }
    requires ordered { IsAscending value_cmp (value_in key_column) (rows_of change.now.table tables.items) }
    // Where they are tables of some layouts, and the change is one of them, they are the tables with it.
    ensures { IfOk result (λ made. (layouts : List Layout) → key_column ≡ key_of change.now.table layouts
        → IsGood layouts tables.items → IsChangeOf layouts change.now tables.items → IsFitting layouts change.now
        → IsStep layouts change.now tables.items made.items) }
{
    let mut made = tables;
    let old = take_rows(&mut made, change.table);
    made[change.table] = old.with(key_column, change)?;
    Ok(made)
}

/// Takes the rows of a table out, and leaves none in their place: nobody else holds them then, so that a change is made
/// where they stand.
fn take_rows(tables: &mut Vec<Rows>, table: usize) -> Rows
    requires { table < length tables.old.items }
    ensures taken { result ≡ slice_index_or tables.old.items table result }
    ensures left { tables.new.items ≡ slice_set tables.old.items table [] }
{
    let none = Rows::new(*tables.allocator());
    mem::replace(&mut tables[table], none)
}

/// What is maintained for the assertions after a change of the tables.
pub fn watches_after(
    alloc: Global,
    schemas: &[Schema],
    before: &[Rows],
    after: &[Rows],
    assertions: &[Assertion],
    watches: &[Arc<Watch>],
    change: &Change,
) -> Result<Vec<Arc<Watch>>, AllocError>
    requires bounded { AreBounded assertions.now }
    requires step { IsStep schemas.now change.now before.now after.now }
    requires watched { AreWatched schemas.now before.now assertions.now (length assertions.now)
        (map arc_value watches.now) }
    ensures { IfOk result (λ made. AreWatched schemas.now after.now assertions.now (length assertions.now)
        (map arc_value made.items)) }
{
    let mut made = Vec::with_capacity(alloc, assertions.len())?;
    for index in 0..assertions.len() {
        let form = &assertions[index].form;
        let watch = &watches[index];
        made.push(watch_after(watch, alloc, schemas, before, after, form, change)?)?;
    }
    Ok(made)
}

/// Tables equal to these, each of which can be counted.
pub fn copy_tables(alloc: Global, tables: &[Rows]) -> Result<Vec<Rows>, AllocError>
    ensures equal { IfOk result (λ made. made.items ≡ tables.now) }
    ensures short { IfOk result (λ made. AreShort made.items) }
{
    let mut made = Vec::with_capacity(alloc, tables.len())?;
    for table in 0..tables.len() {
        let rows = &tables[table];
        rows.recall_length();
        made.push(rows.copy()?)?;
    }
    Ok(made)
}

/// Tables equal to these, each of which can be counted. Where a subquery of an assertion by rows is linked to another
/// column than the key, the rows that it is linked to are found by that column without a look at the others.
pub fn index_tables(
    alloc: Global,
    schemas: &[Schema],
    tables: &[Rows],
    assertions: &[Assertion],
) -> Result<Vec<Rows>, AllocError>
    ensures equal { IfOk result (λ made. made.items ≡ tables.now) }
    ensures short { IfOk result (λ made. AreShort made.items) }
{
    let mut made = copy_tables(alloc, tables)?;
    for assertion in assertions {
        index_form(&mut made, schemas, &assertion.form)?;
    }
    Ok(made)
}

/// Tables equal to these, indexed for one form more.
pub fn index_for(
    alloc: Global,
    schemas: &[Schema],
    tables: &[Rows],
    form: &Form,
) -> Result<Vec<Rows>, AllocError>
    ensures equal { IfOk result (λ made. made.items ≡ tables.now) }
    ensures short { IfOk result (λ made. AreShort made.items) }
{
    let mut made = copy_tables(alloc, tables)?;
    index_form(&mut made, schemas, form)?;
    Ok(made)
}

/// Indexes the rows of a form's table by each column that links a subquery to them, and those of joint subqueries.
fn index_form(tables: &mut [Rows], schemas: &[Schema], form: &Form) -> Result<(), AllocError>
    ensures { tables.new ≡ tables.old }
{
    if let Form::ByRow { table, queries, .. } = form {
        if *table < tables.len() {
            let key = key_column(schemas, *table);
            index_links(&mut tables[*table], key, queries.as_slice())?;
        }
        for query in queries.as_slice() {
            index_joint(tables, schemas, query)?;
        }
    }
    Ok(())
}

/// Indexes the rows of a subquery's table by the column of its link, other than their key, where its filter asks what
/// the row around holds: those that are linked to a row around are looked at where that row is new or another.
fn index_joint(
    tables: &mut [Rows],
    schemas: &[Schema],
    query: &Query<Link>,
) -> Result<(), AllocError>
    ensures { tables.new ≡ tables.old }
{
    let (table, column) = (query.table, query.grouping.inner);
    let key = key_column(schemas, table);
    if table < tables.len() && column != key && query.filter.has_slots() {
        tables[table] = tables[table].with_index(key, column)?;
    }
    Ok(())
}

/// Indexes rows by each column, other than that of their key, that links a subquery to them.
fn index_links(
    rows: &mut Rows,
    key_column: usize,
    queries: &[Query<Link>],
) -> Result<(), AllocError>
    ensures { rows.new ≡ rows.old }
{
    for query in queries {
        let column = query.grouping.outer;
        if column != key_column {
            *rows = rows.with_index(key_column, column)?;
        }
    }
    Ok(())
}

/// Tables that nobody shares settle.
pub fn settle_tables(tables: &mut [Rows])
    ensures { tables.new ≡ tables.old }
{
    for table in 0..tables.len() {
        tables[table].settle();
    }
}

/// Watches that nobody shares settle.
pub fn settle_watches(watches: &mut [Arc<Watch>])
    ensures { AreAllAlike (map arc_value watches.new) (map arc_value watches.old) }
{
    for at in 0..watches.len() {
        settle_watch(&mut watches[at]);
    }
}

/// The same watches, shared.
pub fn copy_watches(alloc: Global, watches: &[Arc<Watch>]) -> Result<Vec<Arc<Watch>>, AllocError>
    ensures { IfOk result (λ made. map arc_value made.items ≡ map arc_value watches.now) }
{
    let mut made = Vec::new(alloc);
    for watch in watches {
        made.push(Arc::try_clone(watch)?)?;
    }
    Ok(made)
}

/// Assertions, and what is maintained for each of them.
pub struct WatchedAssertions {
    pub assertions: Vec<Assertion>,
    pub watches: Vec<Arc<Watch>>,
}

/// The assertions that do not have this name, with the same watches, shared.
pub fn leave_out(
    alloc: Global,
    _schemas: &[Schema],
    _tables: &[Rows],
    assertions: &[Assertion],
    watches: &[Arc<Watch>],
    name: &Text,
) -> Result<WatchedAssertions, AllocError>
    requires watched { AreWatched _schemas.now _tables.now assertions.now (length assertions.now)
        (map arc_value watches.now) }
    ensures left { IfOk result (λ made.
        made.assertions.items ≡ filter (λ a. not (bytes_eq a.name name.now)) assertions.now) }
    ensures watched { IfOk result (λ made. AreWatched _schemas.now _tables.now made.assertions.items
        (length made.assertions.items) (map arc_value made.watches.items)) }
{
    let mut left = Vec::new(alloc);
    let mut shared = Vec::new(alloc);
    for index in 0..assertions.len() {
        let assertion = &assertions[index];
        if assertion.name != *name {
            left.push(assertion.copy(alloc)?)?;
            shared.push(Arc::try_clone(&watches[index])?)?;
        }
    }
    Ok(WatchedAssertions {
        assertions: left,
        watches: shared,
    })
}
