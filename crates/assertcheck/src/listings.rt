//! What a SELECT lists.

ghost use Rattle.std.specs.Prelude.{◌≡◌, ◌≢◌, [], map, IsTrue, IfOk, IfErr, Ok, Err, Some, None};
ghost use Rattle.value.specs.declared.refusals.Refusal.TheVariants.{NoMemory};
ghost use Rattle.table.specs.declared.exprs.Expr.TheVariants as expr_of;
ghost use Rattle.form_check.specs.ShownScopes.{lent_scope};
ghost use Rattle.assertcheck.specs.Statements.{places_from};
ghost use Rattle.assertcheck.specs.declared.selects.Listing.TheVariants as listings;
ghost use Rattle.assertcheck.specs.Selects.{IsBoundedListing, columns_fault, derived_of, each_row_of, is_bounded_listing, is_typed_listing, listed_fault, listing_of};

use crate::groupings::{grouping_of, is_bounded_grouping, is_grouped, is_typed_grouping};
use crate::selects::Listing;
use crate::typed_trees::expression_type;
use form_check::{Scope, look_up_expression, row_expression};
use sqlite_items::Items;
use std::alloc::{AllocError, Global};
use syntax::DerivedColumn;
use table::{Catalog, Column, Expr, bound};
use value::Refusal;

/// Looks up the names in what a SELECT lists, from the left.
pub fn look_up_columns(
    alloc: Global,
    catalog: &Catalog,
    scope: Scope,
    columns: &Option<Items<DerivedColumn>>,
) -> Result<(), Refusal>
    ensures known { IfOk result (λ _. listed_fault catalog.now (lent_scope scope.entry) columns.now ≡ None) }
    ensures refused { IfErr result (λ refusal.
        refusal ≢ NoMemory → listed_fault catalog.now (lent_scope scope.entry) columns.now ≡ Some refusal) }
{
    match columns {
        None => Ok(()),
        Some(columns) => look_up_each(alloc, catalog, scope, columns.as_slice()),
    }
}

fn look_up_each(
    alloc: Global,
    catalog: &Catalog,
    scope: Scope,
    columns: &[DerivedColumn],
) -> Result<(), Refusal>
    ensures known { IfOk result (λ _. columns_fault catalog.now (lent_scope scope.entry) columns.now ≡ None) }
    ensures refused { IfErr result (λ refusal.
        refusal ≢ NoMemory → columns_fault catalog.now (lent_scope scope.entry) columns.now ≡ Some refusal) }
{
    for column in columns {
        look_up_expression(alloc, catalog, &[scope], &column.value)?;
    }
    Ok(())
}

/// What a SELECT lists, its types and widths not judged.
pub fn listing(alloc: Global, scope: Scope, select: &syntax::Select) -> Result<Listing, Refusal>
    ensures made { IfOk result (λ made. listing_of (lent_scope scope.entry) select.now ≡ Ok made) }
    ensures refused { IfErr result (λ refusal.
        refusal ≢ NoMemory → listing_of (lent_scope scope.entry) select.now ≡ Err refusal) }
{
    if is_grouped(select) {
        Ok(Listing::EachGroup(grouping_of(alloc, scope, select)?))
    } else {
        Ok(Listing::EachRow(each_row(alloc, scope, &select.columns)?))
    }
}

/// What is listed of each row.
fn each_row(
    alloc: Global,
    scope: Scope,
    columns: &Option<Items<DerivedColumn>>,
) -> Result<Items<Expr>, Refusal>
    ensures made { IfOk result (λ made. each_row_of (lent_scope scope.entry) columns.now ≡ Ok made) }
    ensures refused { IfErr result (λ refusal.
        refusal ≢ NoMemory → each_row_of (lent_scope scope.entry) columns.now ≡ Err refusal) }
{
    match columns {
        Some(columns) => derived_columns(alloc, scope, columns.as_slice()),
        None => Ok(own_columns(alloc, scope.schema.columns())?),
    }
}

/// All columns of a table.
fn own_columns(alloc: Global, columns: &[Column]) -> Result<Items<Expr>, AllocError>
    ensures { IfOk result (λ made. made ≡ map expr_of.Column (places_from 0 columns.now)) }
{
    let mut made = Vec::with_capacity(alloc, columns.len())?;
    for _column in columns {
        let place = made.len();
        made.push(Expr::Column(place))?;
    }
    Ok(Items::from_vec(made))
}

/// Derived columns over each row.
#[tactic(auto, using(value::proofs::Results::behind_next, value::proofs::Results::behind_none))]
fn derived_columns(
    alloc: Global,
    scope: Scope,
    columns: &[DerivedColumn],
) -> Result<Items<Expr>, Refusal>
    ensures made { IfOk result (λ made. derived_of (lent_scope scope.entry) columns.now ≡ Ok made) }
    ensures refused { IfErr result (λ refusal.
        refusal ≢ NoMemory → derived_of (lent_scope scope.entry) columns.now ≡ Err refusal) }
{
    let mut made = Vec::new(alloc);
    for column in columns {
        made.push(row_expression(alloc, scope, &column.value)?)?;
    }
    Ok(Items::from_vec(made))
}

/// Whether each listed expression has a type, over a table of these columns.
pub fn is_typed_listing(
    alloc: Global,
    columns: &[Column],
    listing: &Listing,
) -> Result<bool, AllocError>
    ensures { IfOk result (λ typed. typed ≡ is_typed_listing columns.now listing.now) }
{
    match listing {
        Listing::EachRow(values) => Ok(are_typed(columns, values.as_slice())),
        Listing::EachGroup(grouping) => is_typed_grouping(alloc, columns, grouping),
    }
}

fn are_typed(columns: &[Column], values: &[Expr]) -> bool
    ensures { result ≡ is_typed_listing columns.now (listings.EachRow values.now) }
{
    values
        .iter()
        .all(|value| expression_type(value, columns, &[]).is_some())
}

/// Whether each listed expression has a bound.
pub fn is_bounded_listing(alloc: Global, listing: &Listing) -> Result<bool, AllocError>
    ensures value { IfOk result (λ bounded. bounded ≡ is_bounded_listing listing.now) }
    ensures bounded { IfOk result (λ bounded. IsTrue bounded → IsBoundedListing listing.now) }
{
    match listing {
        Listing::EachRow(values) => Ok(are_bounded(values.as_slice())),
        Listing::EachGroup(grouping) => is_bounded_grouping(alloc, grouping),
    }
}

fn are_bounded(values: &[Expr]) -> bool
    ensures { result ≡ is_bounded_listing (listings.EachRow values.now) }
{
    values.iter().all(|value| bound(value, &[]).is_ok())
}
