//! The rows that a query stands over, what it lists, and conditions over those rows alone.

ghost use Rattle.std.specs.Prelude.{◌≡◌, ◌≢◌, ◌<◌, length, IfOk, IfErr, IfSome, Ok, Err, None};
ghost use Rattle.table.specs.Rows.{layout_of, position_of};
ghost use Rattle.std.specs.Option.{option_map};
ghost use Rattle.value.specs.declared.refusals.Refusal.TheVariants.{NoMemory};
ghost use Rattle.form_check.specs.ShownScopes.{lent_scope};
ghost use Rattle.form_check.specs.Queries.{alone, source_of, source_named, row_condition, joint_condition, row_expression, row_filter, of_column, selected_aggregate, may_be_selected};
ghost use Rattle.form_check.specs.ShownSources.{shown_source};
ghost use Rattle.form_check.specs.ShownLeaves.{shown_leaves, place};

use crate::leaves::{Columns, Leaf, numbered_condition, numbered_expression};
use crate::scopes::{Scope, exposed_name};
use sqlite_items::Items;
use std::alloc::Global;
use syntax::{Condition, Expression, SelectList, SetQuantifier};
use table::{Aggregate, Catalog, Cond, Expr};
use value::{Refusal, Text};

/// The table of a query: by its place in the catalog, and as names in the query see it.
#[derive(Clone, Copy)]
pub struct Source<'a> {
    pub table: usize,
    pub scope: Scope<'a>,
}

impl<'a> Source<'a> {
    /// The rows of a query over this table, which may have a correlation name.
    pub fn of(
        catalog: &'a Catalog,
        table: &'a Text,
        correlation_name: &'a Option<Text>,
    ) -> Option<Source<'a>>
        ensures source { option_map shown_source result ≡ source_of catalog.now table.now correlation_name.now }
        ensures within { IfSome result (λ source. source.table < length catalog.now) }
    {
        Source::of_table(catalog, table, exposed_name(correlation_name, table))
    }

    /// The rows of a statement's table, which goes by its own name.
    pub fn by_table_name(catalog: &'a Catalog, table: &'a Text) -> Option<Source<'a>>
        ensures source { option_map shown_source result ≡ source_of catalog.now table.now None }
        ensures within { IfSome result (λ source. source.table < length catalog.now) }
    {
        Source::of_table(catalog, table, table)
    }

    /// The rows of this table under a name that it goes by.
    fn of_table(catalog: &'a Catalog, table: &Text, name: &'a Text) -> Option<Source<'a>>
        ensures source { option_map shown_source result
            ≡ source_named name.now (position_of table.now catalog.now) (layout_of table.now catalog.now) }
        ensures within { IfSome result (λ source. source.table < length catalog.now) }
    {
        let place = catalog.position(table)?;
        let schema = catalog.get(table)?;
        Some(Source {
            table: place,
            scope: Scope {
                exposed_name: name,
                schema,
            },
        })
    }
}

/// A condition over the rows of one table.
///
/// # Errors
///
/// [`Refusal::OutsideClass`] where it holds a set function, a query or a column of another table; or
/// [`Refusal::NoMemory`].
pub fn row_condition(alloc: Global, scope: Scope, condition: &Condition) -> Result<Cond, Refusal>
    ensures made { IfOk result (λ made. row_condition (lent_scope scope.entry) condition.now ≡ Ok made) }
    ensures refused { IfErr result (λ refusal.
        refusal ≢ NoMemory → row_condition (lent_scope scope.entry) condition.now ≡ Err refusal) }
{
    let mut leaves = Vec::new(alloc);
    let made = numbered_condition(alloc, &Columns::Own(scope), condition, &mut leaves)?;
    require_own_columns(made, &leaves)
}

/// A condition over a row of a query's table, and the row around it, which holds what stands in the slots.
///
/// # Errors
///
/// [`Refusal::OutsideClass`] where it holds a set function, a query or a column of a third table; or
/// [`Refusal::NoMemory`].
pub fn joint_condition(
    alloc: Global,
    child: Scope,
    root: Scope,
    condition: &Condition,
) -> Result<Cond, Refusal>
    ensures made { IfOk result (λ made.
        joint_condition (lent_scope child.entry) (lent_scope root.entry) condition.now ≡ Ok made) }
    ensures refused { IfErr result (λ refusal. refusal ≢ NoMemory
        → joint_condition (lent_scope child.entry) (lent_scope root.entry) condition.now ≡ Err refusal) }
{
    let mut leaves = Vec::new(alloc);
    let made = numbered_condition(alloc, &Columns::Both(child, root), condition, &mut leaves)?;
    require_own_columns(made, &leaves)
}

/// An expression over the rows of one table.
///
/// # Errors
///
/// [`Refusal::OutsideClass`] where it holds a set function, a query or a column of another table; or
/// [`Refusal::NoMemory`].
pub fn row_expression(alloc: Global, scope: Scope, expression: &Expression) -> Result<Expr, Refusal>
    ensures made { IfOk result (λ made. row_expression (lent_scope scope.entry) expression.now ≡ Ok made) }
    ensures refused { IfErr result (λ refusal.
        refusal ≢ NoMemory → row_expression (lent_scope scope.entry) expression.now ≡ Err refusal) }
{
    let mut leaves = Vec::new(alloc);
    let made = numbered_expression(alloc, &Columns::Own(scope), expression, &mut leaves)?;
    require_own_columns(made, &leaves)
}

/// What was made, if nothing but columns and literals stood there.
fn require_own_columns<T: Drop>(made: T, leaves: &[Leaf]) -> Result<T, Refusal>
    ensures { result ≡ alone made (shown_leaves leaves.now) }
{
    if leaves.is_empty() {
        Ok(made)
    } else {
        Err(Refusal::OutsideClass)
    }
}

/// A condition over the rows of one table; a missing one keeps every row.
pub fn row_filter(
    alloc: Global,
    scope: Scope,
    condition: &Option<Condition>,
) -> Result<Cond, Refusal>
    ensures made { IfOk result (λ made. row_filter (lent_scope scope.entry) condition.now ≡ Ok made) }
    ensures refused { IfErr result (λ refusal.
        refusal ≢ NoMemory → row_filter (lent_scope scope.entry) condition.now ≡ Err refusal) }
{
    match condition {
        Some(condition) => row_condition(alloc, scope, condition),
        None => Ok(Cond::And(Items::new(alloc))),
    }
}

/// The one set function that a query lists, over a column of its own table.
pub fn selected_aggregate(scope: Scope, select_list: &SelectList) -> Option<Aggregate>
    ensures { result ≡ selected_aggregate (lent_scope scope.entry) select_list.now }
{
    match select_list {
        SelectList::One(Expression::CountRows) => Some(Aggregate::CountRows),
        SelectList::One(Expression::Aggregate(function, argument)) => {
            let column = scope.own(&argument.column)?;
            Some(of_column(*function, argument.quantifier, column))
        }
        SelectList::One(_) | SelectList::Star => None,
    }
}

/// A set function of a column. The least value and the greatest are the same with DISTINCT.
pub fn of_column(function: syntax::Aggregate, quantifier: SetQuantifier, column: usize) -> Aggregate
    ensures { result ≡ of_column function quantifier column }
{
    match (function, quantifier) {
        (syntax::Aggregate::Count, SetQuantifier::All) => Aggregate::Count(column),
        (syntax::Aggregate::Count, SetQuantifier::Distinct) => Aggregate::CountDistinct(column),
        (syntax::Aggregate::Sum, SetQuantifier::All) => Aggregate::Sum(column),
        (syntax::Aggregate::Sum, SetQuantifier::Distinct) => Aggregate::SumDistinct(column),
        (syntax::Aggregate::Min, _) => Aggregate::Min(column),
        (syntax::Aggregate::Max, _) => Aggregate::Max(column),
    }
}

/// Whether a query under EXISTS may list this: `*`, a literal, or one of these columns.
pub fn may_be_selected(columns: &Columns, select_list: &SelectList) -> bool
    ensures { result ≡ may_be_selected (place columns.now) select_list.now }
{
    match select_list {
        SelectList::Star | SelectList::One(Expression::Number(_) | Expression::Text(_)) => true,
        SelectList::One(Expression::Column(column)) => columns.place(column).is_some(),
        SelectList::One(_) => false,
    }
}
