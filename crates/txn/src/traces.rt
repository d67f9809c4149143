//! Copies of statements with their names found.

ghost use Rattle.std.specs.Prelude.{◌≡◌, IfOk};

use crate::copies::{Part, copy_all, copy_if};
use alone::ResolvedStatement;
use assertcheck::{Delete, Grouping, Listing, NewRows, Select, Setting, Update};
use form_check::{GroupCondition, Summary};
use sqlite_items::Items;
use std::alloc::{AllocError, Global};

/// Statements equal to these.
pub fn copy_trace(
    alloc: Global,
    trace: &[ResolvedStatement],
) -> Result<Items<ResolvedStatement>, AllocError>
    ensures { IfOk result (λ copy. copy ≡ trace.now) }
{
    copy_all(alloc, trace)
}

impl Part for ResolvedStatement {
    fn copy_in(&self, alloc: Global) -> Result<ResolvedStatement, AllocError>
        ensures { IfOk result (λ copy. copy ≡ self.now) }
    {
        match self {
            ResolvedStatement::Refused(refusal) => Ok(ResolvedStatement::Refused(refusal.copy()?)),
            ResolvedStatement::Insert(new) => Ok(ResolvedStatement::Insert(copy_new_rows(
                alloc, new,
            )?)),
            ResolvedStatement::Update(update) => Ok(ResolvedStatement::Update(copy_update(
                alloc, update,
            )?)),
            ResolvedStatement::Delete(delete) => Ok(ResolvedStatement::Delete(copy_delete(
                alloc, delete,
            )?)),
            ResolvedStatement::Select(select) => Ok(ResolvedStatement::Select(copy_select(
                alloc, select,
            )?)),
            ResolvedStatement::SetModes { names, mode } => Ok(ResolvedStatement::SetModes {
                names: copy_all(alloc, names.as_slice())?,
                mode: *mode,
            }),
            ResolvedStatement::Verdict(name) => Ok(ResolvedStatement::Verdict(name.copy()?)),
        }
    }
}

fn copy_new_rows(alloc: Global, new: &NewRows) -> Result<NewRows, AllocError>
    ensures { IfOk result (λ copy. copy ≡ new.now) }
{
    Ok(NewRows {
        table: new.table,
        rows: copy_all(alloc, new.rows.as_slice())?,
    })
}

fn copy_delete(alloc: Global, delete: &Delete) -> Result<Delete, AllocError>
    ensures { IfOk result (λ copy. copy ≡ delete.now) }
{
    Ok(Delete {
        table: delete.table,
        filter: delete.filter.copy(alloc)?,
    })
}

fn copy_select(alloc: Global, select: &Select) -> Result<Select, AllocError>
    ensures { IfOk result (λ copy. copy ≡ select.now) }
{
    let listing = copy_listing(alloc, &select.listing)?;
    Ok(Select {
        table: select.table,
        listing,
        filter: select.filter.copy(alloc)?,
    })
}

fn copy_listing(alloc: Global, listing: &Listing) -> Result<Listing, AllocError>
    ensures { IfOk result (λ copy. copy ≡ listing.now) }
{
    match listing {
        Listing::EachRow(values) => Ok(Listing::EachRow(copy_all(alloc, values.as_slice())?)),
        Listing::EachGroup(grouping) => Ok(Listing::EachGroup(copy_grouping(alloc, grouping)?)),
    }
}

fn copy_grouping(alloc: Global, grouping: &Grouping) -> Result<Grouping, AllocError>
    ensures { IfOk result (λ copy. copy ≡ grouping.now) }
{
    let columns = copy_all(alloc, grouping.columns.as_slice())?;
    let having = copy_if(alloc, &grouping.having)?;
    Ok(Grouping {
        columns,
        having,
        values: copy_all(alloc, grouping.values.as_slice())?,
    })
}

impl Part for Summary {
    fn copy_in(&self, alloc: Global) -> Result<Summary, AllocError>
        ensures { IfOk result (λ copy. copy ≡ self.now) }
    {
        let aggregates = copy_all(alloc, self.aggregates.as_slice())?;
        Ok(Summary {
            aggregates,
            value: self.value.copy(alloc)?,
        })
    }
}

impl Part for GroupCondition {
    fn copy_in(&self, alloc: Global) -> Result<GroupCondition, AllocError>
        ensures { IfOk result (λ copy. copy ≡ self.now) }
    {
        let aggregates = copy_all(alloc, self.aggregates.as_slice())?;
        Ok(GroupCondition {
            aggregates,
            condition: self.condition.copy(alloc)?,
        })
    }
}

fn copy_update(alloc: Global, update: &Update) -> Result<Update, AllocError>
    ensures { IfOk result (λ copy. copy ≡ update.now) }
{
    let sets = copy_all(alloc, update.sets.as_slice())?;
    Ok(Update {
        table: update.table,
        sets,
        filter: update.filter.copy(alloc)?,
    })
}

impl Part for Setting {
    fn copy_in(&self, alloc: Global) -> Result<Setting, AllocError>
        ensures { IfOk result (λ copy. copy ≡ self.now) }
    {
        Ok(Setting {
            column: self.column,
            value: copy_if(alloc, &self.value)?,
        })
    }
}
