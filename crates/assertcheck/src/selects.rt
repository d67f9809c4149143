//! SELECT.

ghost use Rattle.std.specs.Prelude.{◌≡◌, ◌≢◌, ◌<◌, [], length, IsTrue, IfOk, IfErr, Ok, Err, None, Some};
ghost use Rattle.table.specs.Bounds.{is_bounded as is_bounded_of};
ghost use Rattle.value.specs.declared.refusals.Refusal.TheVariants.{NoMemory};
ghost use Rattle.form_check.specs.ShownScopes.{lent_scope};
ghost use Rattle.form_check.specs.ShownSources.{shown_source};
ghost use Rattle.assertcheck.specs.Selects.{IsBoundedListing, lists_each_row, select_of, select_over, selected_fault, selected_source, sound_select};

use crate::conditions::{look_up_where, row_filter};
use crate::groupings::{Grouping, look_up_grouping};
use crate::listings::{is_bounded_listing, is_typed_listing, listing, look_up_columns};
use crate::typed_trees::is_well_typed;
use form_check::{Scope, Source};
use sqlite_items::Items;
use std::alloc::Global;
use table::{Catalog, Column, Cond, Expr, is_bounded};
use value::Refusal;

/// What a SELECT lists of the rows that its condition keeps.
#[derive(Debug, Drop)]
pub enum Listing {
    /// Of each row what these expressions give.
    EachRow(Items<Expr>),
    /// Of each group of rows what is over it.
    EachGroup(Grouping),
}

/// A SELECT with its names found.
#[derive(Debug, Drop)]
pub struct Select {
    /// The table's place in the catalog.
    pub table: usize,
    pub listing: Listing,
    pub filter: Cond,
}

/// `SELECT columns FROM table WHERE condition GROUP BY columns HAVING condition`.
///
/// # Errors
///
/// The first fault: [`Refusal::UnknownName`] of the table, then of the names in the listed columns, WHERE, GROUP BY and
/// HAVING, from the left. After all names, of all that is written, [`Refusal::OutsideClass`], then
/// [`Refusal::TypeMismatch`], and then [`Refusal::TooWide`]. Or [`Refusal::NoMemory`].
pub fn check_select(
    alloc: Global,
    catalog: &Catalog,
    select: &syntax::Select,
) -> Result<Select, Refusal>
    ensures made { IfOk result (λ made. select_of catalog.now select.now ≡ Ok made) }
    ensures refused { IfErr result (λ refusal.
        refusal ≢ NoMemory → select_of catalog.now select.now ≡ Err refusal) }
    ensures within { IfOk result (λ made. made.table < length catalog.now) }
    ensures bounded { IfOk result (λ made. IsBoundedListing made.listing) }
    ensures bounded_condition { IfOk result (λ made. IsTrue (is_bounded_of [] made.filter)) }
{
    let target = selected_source(catalog, select)?;
    let made = select_over(alloc, target, select);
    if !lists_each_row(&made) {
        known_names(alloc, catalog, target.scope, select)?;
    }
    made
}

/// The table that a SELECT names.
fn selected_source<'a>(
    catalog: &'a Catalog,
    select: &'a syntax::Select,
) -> Result<Source<'a>, Refusal>
    ensures found { IfOk result (λ source. selected_source catalog.now select.now ≡ Ok (shown_source source)) }
    ensures refused { IfErr result (λ refusal.
        refusal ≢ NoMemory → selected_source catalog.now select.now ≡ Err refusal) }
    ensures within { IfOk result (λ source. source.table < length catalog.now) }
{
    match Source::of(catalog, &select.table, &select.correlation_name) {
        Some(source) => Ok(source),
        None => Err(Refusal::UnknownName {
            name: select.table.copy()?,
        }),
    }
}

/// Whether a SELECT could be made, and lists each row. Then its names are known: nothing but columns of its table
/// stands there.
fn lists_each_row(made: &Result<Select, Refusal>) -> bool
    ensures { result ≡ lists_each_row made.now }
{
    match made {
        Ok(select) => matches!(&select.listing, Listing::EachRow(_)),
        Err(_) => false,
    }
}

/// Looks up the names in the listed columns, WHERE, GROUP BY and HAVING, from the left.
fn known_names(
    alloc: Global,
    catalog: &Catalog,
    scope: Scope,
    select: &syntax::Select,
) -> Result<(), Refusal>
    ensures known { IfOk result (λ _. selected_fault catalog.now (lent_scope scope.entry) select.now ≡ None) }
    ensures refused { IfErr result (λ refusal.
        refusal ≢ NoMemory → selected_fault catalog.now (lent_scope scope.entry) select.now ≡ Some refusal) }
{
    look_up_columns(alloc, catalog, scope, &select.columns)?;
    look_up_where(alloc, catalog, scope, &select.keeps)?;
    look_up_grouping(scope, &select.group_by)?;
    look_up_where(alloc, catalog, scope, &select.having)
}

/// The SELECT of a table, if what it lists and its conditions are of the table's rows and their groups alone, typed and
/// bounded.
fn select_over(alloc: Global, target: Source, select: &syntax::Select) -> Result<Select, Refusal>
    ensures made { IfOk result (λ made. select_over (shown_source target.entry) select.now ≡ Ok made) }
    ensures refused { IfErr result (λ refusal.
        refusal ≢ NoMemory → select_over (shown_source target.entry) select.now ≡ Err refusal) }
    ensures place { IfOk result (λ made. made.table ≡ target.entry.table) }
    ensures bounded { IfOk result (λ made. IsBoundedListing made.listing) }
    ensures bounded_condition { IfOk result (λ made. IsTrue (is_bounded_of [] made.filter)) }
{
    let listing = listing(alloc, target.scope, select)?;
    let filter = row_filter(alloc, target.scope, &select.keeps)?;
    let select = Select {
        table: target.table,
        listing,
        filter,
    };
    require_sound(alloc, target.scope.schema.columns(), select)
}

/// The SELECT, if what it lists and its conditions are typed, and bounded.
fn require_sound(alloc: Global, columns: &[Column], select: Select) -> Result<Select, Refusal>
    ensures made { IfOk result (λ made. sound_select columns.now select ≡ Ok made) }
    ensures refused { IfErr result (λ refusal. refusal ≢ NoMemory → sound_select columns.now select ≡ Err refusal) }
    ensures same { IfOk result (λ made. made ≡ select) }
    ensures bounded { IfOk result (λ made. IsBoundedListing made.listing) }
    ensures bounded_condition { IfOk result (λ made. IsTrue (is_bounded_of [] made.filter)) }
{
    let typed = is_typed_listing(alloc, columns, &select.listing)?;
    if !typed || !is_well_typed(&select.filter, columns, &[]) {
        return Err(Refusal::TypeMismatch);
    }
    let bounded = is_bounded_listing(alloc, &select.listing)?;
    if !bounded || !is_bounded(&select.filter, &[]) {
        return Err(Refusal::TooWide);
    }
    Ok(select)
}
