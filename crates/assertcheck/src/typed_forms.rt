//! Which forms of assertions are typed.

ghost use Rattle.std.specs.Prelude.{◌≡◌, [], map, IfOk};
ghost use Rattle.table.specs.Rows.{layouts_of};
ghost use Rattle.assertcheck.specs.Types.{aggregate_type as aggregate_type_of};
ghost use Rattle.assertcheck.specs.Forms.{all_types, columns_of as columns_of_layouts, group_columns as group_columns_of, is_typed_form, is_typed_over as is_typed_over_types, linked_type_over, query_type as query_type_of, types_of};

use crate::data_types::{DataType, aggregate_type, are_comparable, column_type};
use crate::typed_trees::is_well_typed;
use assertion::{Form, Link, Query, Whole};
use sqlite_items::Items;
use std::alloc::{AllocError, Global};
use std::slice;
use table::{Aggregate, Catalog, Column, Cond};

/// Whether each condition of a form is typed over what it sees, each link is between two columns of one type, and no
/// SUM is of a text column. The form's tables are those of the catalog, by their places.
pub fn form_is_typed(alloc: Global, catalog: &Catalog, form: &Form) -> Result<bool, AllocError>
    ensures { IfOk result (λ typed. typed ≡ is_typed_form (layouts_of catalog.now) form.now) }
{
    match form {
        Form::ByRow {
            table,
            condition,
            queries,
        } => {
            let columns = columns_of(catalog, *table);
            let types = row_types(alloc, columns)?;
            let of = LinkedQueries {
                catalog,
                columns,
                types: types.as_slice(),
            };
            let slots = slot_types(alloc, &of, queries.as_slice())?;
            Ok(is_typed_over(condition, columns, &slots))
        }
        Form::ByGroup {
            table,
            filter,
            group,
            having,
            aggregates,
        } => {
            let columns = columns_of(catalog, *table);
            if !is_well_typed(filter, columns, &[]) {
                return Ok(false);
            }
            let slots = aggregate_types(alloc, columns, aggregates.as_slice())?;
            Ok(is_typed_over(having, group_columns(columns, *group), &slots))
        }
        Form::Single { condition, queries } => {
            let slots = slot_types(alloc, &WholeQueries { catalog }, queries.as_slice())?;
            Ok(is_typed_over(condition, &[], &slots))
        }
    }
}

/// Whether a condition is typed over slots of these types, each of which has to be there.
pub fn is_typed_over(cond: &Cond, columns: &[Column], slots: &Option<Items<DataType>>) -> bool
    ensures { result ≡ is_typed_over_types columns.now slots.now cond.now }
{
    match slots {
        Some(slots) => is_well_typed(cond, columns, slots.as_slice()),
        None => false,
    }
}

/// The columns of the table at this place; none where there is no such table.
fn columns_of(catalog: &Catalog, table: usize) -> &[Column]
    ensures { result.now ≡ columns_of_layouts (layouts_of catalog.now) table }
{
    match catalog.at(table) {
        Some(schema) => schema.columns(),
        None => &[],
    }
}

/// The grouping column as the only one: what HAVING sees.
fn group_columns(columns: &[Column], group: usize) -> &[Column]
    ensures { result.now ≡ group_columns_of columns.now group }
{
    match columns.get(group) {
        Some(column) => slice::from_ref(column),
        None => &[],
    }
}

/// What gives the type of each slot of a condition.
trait SlotTypes {
    ghost use Rattle.std.specs.Prelude.{Option};
    ghost use Rattle.assertcheck.specs.declared.data_types.DataType.{DataType as AnyType};

    type Slot;

    ghost slot_type: { Self → Self.Slot → Option AnyType };

    /// The type of what a slot gives, if it is typed.
    fn slot_type(&self, slot: &Self::Slot) -> Option<DataType>
        ensures { result ≡ slot_type self.now slot.now };
}

/// The types of what slots give; none where one is not typed.
fn slot_types<T: SlotTypes>(
    alloc: Global,
    of: &T,
    slots: &[T::Slot],
) -> Result<Option<Items<DataType>>, AllocError>
    ensures { IfOk result (λ types. types ≡ all_types (map (T.slot_type of.now) slots.now)) }
{
    let mut types = Vec::new(alloc);
    for slot in slots {
        let Some(found) = of.slot_type(slot) else {
            return Ok(None);
        };
        types.push(found)?;
    }
    Ok(Some(Items::from_vec(types)))
}

/// The types of what set functions of rows of these columns give; none where one is not typed.
pub fn aggregate_types(
    alloc: Global,
    columns: &[Column],
    aggregates: &[Aggregate],
) -> Result<Option<Items<DataType>>, AllocError>
    ensures { IfOk result (λ types. types ≡ all_types (map (aggregate_type_of columns.now) aggregates.now)) }
{
    slot_types(alloc, &Aggregates { columns }, aggregates)
}

/// The types of what a row with these columns holds.
fn row_types(alloc: Global, columns: &[Column]) -> Result<Items<DataType>, AllocError>
    ensures { IfOk result (λ types. types ≡ types_of columns.now) }
{
    let mut types = Vec::new(alloc);
    for column in columns {
        types.push(DataType::from(column.kind))?;
    }
    Ok(Items::from_vec(types))
}

/// The subqueries of a row with these columns, and of these types.
#[derive(Clone, Copy)]
struct LinkedQueries<'a> {
    catalog: &'a Catalog,
    columns: &'a [Column],
    types: &'a [DataType],
}

impl<'a> SlotTypes for LinkedQueries<'a> {
    type Slot = Query<Link>;

    ghost slot_type = { λ s. linked_type_over (layouts_of s.catalog.now) s.columns.now s.types.now };

    fn slot_type(&self, query: &Query<Link>) -> Option<DataType> {
        let columns = columns_of(self.catalog, query.table);
        let inner = column_type(columns, query.grouping.inner);
        let outer = column_type(self.columns, query.grouping.outer);
        if are_comparable(outer, inner) {
            query_type(self.catalog, self.types, query)
        } else {
            None
        }
    }
}

/// Subqueries of their own.
#[derive(Clone, Copy)]
struct WholeQueries<'a> {
    catalog: &'a Catalog,
}

impl<'a> SlotTypes for WholeQueries<'a> {
    type Slot = Query<Whole>;

    ghost slot_type = { λ s. query_type_of (layouts_of s.catalog.now) [] };

    fn slot_type(&self, query: &Query<Whole>) -> Option<DataType> {
        query_type(self.catalog, &[], query)
    }
}

/// The set functions of rows of these columns.
#[derive(Clone, Copy)]
struct Aggregates<'a> {
    columns: &'a [Column],
}

impl<'a> SlotTypes for Aggregates<'a> {
    type Slot = Aggregate;

    ghost slot_type = { λ s. aggregate_type_of s.columns.now };

    fn slot_type(&self, aggregate: &Aggregate) -> Option<DataType> {
        aggregate_type(self.columns, *aggregate)
    }
}

/// The type of what a subquery gives, if its WHERE is typed over slots of these types.
fn query_type<G>(catalog: &Catalog, slots: &[DataType], query: &Query<G>) -> Option<DataType>
    ensures { result ≡ query_type_of (layouts_of catalog.now) slots.now query.now }
{
    let columns = columns_of(catalog, query.table);
    if is_well_typed(&query.filter, columns, slots) {
        aggregate_type(columns, query.aggregate)
    } else {
        None
    }
}
