//! Definitions are taken in one after the other.

ghost use Rattle.std.specs.Prelude.{◌≡◌, ◌≢◌, ◌<◌, [], IfOk, IfErr, OnOk, Ok, Err, length};
ghost use Rattle.value.specs.declared.refusals.Refusal.TheVariants.{NoMemory};
ghost use Rattle.definitions.specs.Taken.{is_asserted, empty_database, view_of_definitions, with_assertion, with_constrained_table, with_constraint, with_constraints, with_definition, with_index, with_table};
ghost use Rattle.definitions.specs.Written.{AreWritten};
ghost use Rattle.assertion.specs.Declarations.{layouts_in};
ghost use Rattle.assertion.specs.Changes.{IsChangeOf, state_after};
ghost use Rattle.alone.specs.Statements.{insertion};
ghost use Rattle.changes.specs.Insertions.{tables_after_insert, tables_with_rows};
ghost use Rattle.delta.specs.Views.{IsFitting};

use crate::constraints::{UniqueColumns, constraint_name, foreign_key_condition, unique_condition};
use crate::tables::schema_of;
use crate::takings::Taking;
use assertcheck::{NewRows, check, check_insert};
use assertion::Assertion;
use changes::insertion;
use delta::{View, copy_assertions, copy_catalog, put_change};
use form_check::Source;
use mvrows::Rows;
use std::alloc::{AllocError, Global};
use std::marker::Model;
use syntax::{
    Attributes, Condition, Constraint, Definition, Insert, TableConstraint, TableDefinition,
};
use table::{Catalog, Change, Row, name_at, schema_at};
use value::{Refusal, Text};

/// What definitions define: tables, assertions over them, and the rows that the tables begin with.
#[derive(Drop)]
pub struct Definitions {
    catalog: Catalog,
    assertions: Vec<Assertion>,
    rows: Vec<Rows>,
}

impl Model for Definitions {
    ghost use Rattle.table.specs.contracts.conds.Cond as cond_type;
    ghost use Rattle.table.specs.contracts.exprs.Expr as expr_type;
    ghost use Rattle.std.specs.Coded.{codes};
    ghost use Rattle.table.specs.Rows.{layouts_of};
    ghost use Rattle.delta.specs.Maintained.{IsGood};
    ghost use Rattle.delta.specs.Views.{AreBounded, ViewState};

    ghost Value = { ViewState };

    ghost coded = { Prim.hlevel (codes, cond_type.the_row.coded, expr_type.the_row.coded) };

    ghost view = { λ d. record {
      declared = record { tables = d.catalog; assertions = d.assertions.items };
      state = d.rows.items;
    } };

    ghost invariant = { λ d. AreBounded d.assertions.items × IsGood (layouts_of d.catalog) d.rows.items };
}

impl Definitions {
    /// No table and no assertion, before the first definition.
    pub(crate) fn new(alloc: Global) -> Definitions
        ensures { result ≡ empty_database }
    {
        Definitions {
            catalog: Catalog::new(alloc),
            assertions: Vec::new(alloc),
            rows: Vec::new(alloc),
        }
    }

    /// These with one more definition. No assertion is evaluated. Of the definition's tree nothing is kept. Whether an
    /// index has the name of another is for [`Taking::with`](crate::Taking::with) to ask.
    ///
    /// # Errors
    ///
    /// The fault of the definition, which is the first of several. CREATE TABLE: [`Refusal::NameTaken`] of the table,
    /// then of a column that stands twice, then [`Refusal::UnknownName`] of a column of a PRIMARY KEY, then
    /// [`Refusal::OutsideClass`] unless one column is the key; then of each constraint what [`unique_condition`] and
    /// [`foreign_key_condition`] answer, and what CREATE ASSERTION does. CREATE
    /// ASSERTION: [`Refusal::NameTaken`], and then what `assertcheck::check` answers. INSERT: what
    /// `assertcheck::check_insert` answers, then by columns [`Refusal::NullNotAllowed`] and [`Refusal::OutOfRange`],
    /// and last [`Refusal::DuplicateKey`]. CREATE INDEX: [`Refusal::UnknownName`] of the table, then of the column. Or
    /// [`Refusal::NoMemory`].
    pub(crate) fn with(
        self,
        alloc: Global,
        definition: &Definition,
        unique: &[UniqueColumns],
    ) -> Result<Definitions, Refusal>
        ensures taken { IfOk result (λ made. with_definition unique.now definition.now self ≡ Ok made) }
        ensures refused { IfErr result (λ refusal. refusal ≢ NoMemory
            → with_definition unique.now definition.now self ≡ Err refusal) }
    {
        match definition {
            Definition::Table(table) => self.with_constrained_table(alloc, table, unique),
            Definition::Assertion {
                name,
                condition,
                attributes,
            } => self.with_assertion(alloc, name, condition, *attributes),
            Definition::Insert(insert) => self.with_inserted(alloc, insert),
            Definition::Index { table, column, .. } => self.with_index(table, column),
        }
    }

    /// What these definitions define, taken in in their order. No assertion is evaluated. Each assertion has the name
    /// of its text and means what is written there.
    ///
    /// # Errors
    ///
    /// The first fault, which is that of the first definition that [`Taking::with`](crate::Taking::with) refuses. Or
    /// [`Refusal::NoMemory`].
    pub fn take(alloc: Global, definitions: &[Definition]) -> Result<Definitions, Refusal>
        ensures taken { IfOk result (λ made. view_of_definitions definitions.now ≡ Ok made) }
        ensures refused { IfErr result (λ refusal.
            refusal ≢ NoMemory → view_of_definitions definitions.now ≡ Err refusal) }
        ensures written { IfOk result (λ made. AreWritten definitions.now made.declared) }
    {
        let mut taking = Taking::new(alloc);
        for definition in definitions {
            taking = taking.with(alloc, definition)?;
        }
        Ok(taking.into_definitions())
    }

    /// What a view shows, as if it were defined by a schema: so that what one run left is what another begins with. The
    /// rows are shared with the view. Only memory can fail.
    pub fn of(alloc: Global, view: &View) -> Result<Definitions, AllocError>
        ensures { IfOk result (λ made. made ≡ view.now) }
    {
        Ok(Definitions {
            catalog: copy_catalog(alloc, view.catalog())?,
            assertions: copy_assertions(alloc, view.assertions())?,
            rows: view.copy_rows()?,
        })
    }

    /// The assertions in the order of their creation.
    fn assertions(&self) -> &[Assertion]
        ensures { result.now ≡ self.now.declared.assertions }
    {
        self.assertions.as_slice()
    }

    /// The view of these tables, with the verdicts of the assertions on the rows that they begin with.
    pub fn load(self, alloc: Global) -> Result<View, AllocError>
        ensures { IfOk result (λ view. view ≡ self) }
    {
        let Definitions {
            catalog,
            assertions,
            rows,
        } = self;
        View::load(alloc, catalog, assertions, rows.as_slice())
    }

    /// CREATE TABLE: the table, and then the assertion of each of its constraints.
    fn with_constrained_table(
        self,
        alloc: Global,
        table: &TableDefinition,
        unique: &[UniqueColumns],
    ) -> Result<Definitions, Refusal>
        ensures taken { IfOk result (λ made. with_constrained_table unique.now table.now self ≡ Ok made) }
        ensures refused { IfErr result (λ refusal. refusal ≢ NoMemory
            → with_constrained_table unique.now table.now self ≡ Err refusal) }
    {
        let made = self.with_table(alloc, table)?;
        made.with_constraints(alloc, &table.name, table.constraints.as_slice(), unique)
    }

    /// The assertions of the constraints of a table, in their order.
    fn with_constraints(
        self,
        alloc: Global,
        table: &Text,
        constraints: &[TableConstraint],
        unique: &[UniqueColumns],
    ) -> Result<Definitions, Refusal>
        ensures taken { IfOk result (λ made. with_constraints unique.now table.now constraints.now self ≡ Ok made) }
        ensures refused { IfErr result (λ refusal. refusal ≢ NoMemory
            → with_constraints unique.now table.now constraints.now self ≡ Err refusal) }
    {
        let mut made = self;
        for constraint in constraints {
            made = made.with_constraint(alloc, table, constraint, unique)?;
        }
        Ok(made)
    }

    /// The assertion of a constraint of a table.
    fn with_constraint(
        self,
        alloc: Global,
        table: &Text,
        constraint: &TableConstraint,
        unique: &[UniqueColumns],
    ) -> Result<Definitions, Refusal>
        ensures taken { IfOk result (λ made. with_constraint unique.now table.now constraint.now self ≡ Ok made) }
        ensures refused { IfErr result (λ refusal. refusal ≢ NoMemory
            → with_constraint unique.now table.now constraint.now self ≡ Err refusal) }
    {
        let name = constraint_name(alloc, table, constraint)?;
        let attributes = constraint.attributes;
        match &constraint.constraint {
            Constraint::Unique(columns) => {
                match unique_condition(alloc, &self.catalog, table, columns.as_slice()) {
                    Ok(condition) => self.with_rule(alloc, &name, condition, attributes),
                    Err(refusal) => Err(refusal),
                }
            }
            Constraint::Check { condition, .. } => self.with_assertion(
                alloc, &name, condition, attributes,
            ),
            Constraint::ForeignKey(key) => {
                match foreign_key_condition(alloc, &self.catalog, unique, table, key) {
                    Ok(condition) => self.with_rule(alloc, &name, condition, attributes),
                    Err(refusal) => Err(refusal),
                }
            }
        }
    }

    /// The assertion of a condition that is made of a constraint, and let go here.
    fn with_rule(
        self,
        alloc: Global,
        name: &Text,
        condition: Condition,
        attributes: Attributes,
    ) -> Result<Definitions, Refusal>
        ensures taken { IfOk result (λ made. with_assertion name.now condition attributes self ≡ Ok made) }
        ensures refused { IfErr result (λ refusal. refusal ≢ NoMemory
            → with_assertion name.now condition attributes self ≡ Err refusal) }
    {
        let made = self.with_assertion(alloc, name, &condition, attributes);
        drop(condition);
        made
    }

    /// A table of which nothing is asked: its name is free among the tables.
    fn with_table(self, alloc: Global, table: &TableDefinition) -> Result<Definitions, Refusal>
        ensures taken { IfOk result (λ made.
            with_table table.now.name table.now.columns table.now.keys self ≡ Ok made) }
        ensures refused { IfErr result (λ refusal. refusal ≢ NoMemory
            → with_table table.now.name table.now.columns table.now.keys self ≡ Err refusal) }
    {
        let name = &table.name;
        if self.catalog.get(name).is_some() {
            return Err(Refusal::NameTaken { name: name.copy()? });
        }
        let schema = schema_of(alloc, table.columns.as_slice(), table.keys.as_slice())?;
        let Definitions {
            mut catalog,
            assertions,
            mut rows,
        } = self;
        catalog.add(name.copy()?, schema)?;
        rows.push(Rows::new(alloc))?;
        Ok(Definitions {
            catalog,
            assertions,
            rows,
        })
    }

    /// CREATE ASSERTION: its name is free among the assertions.
    fn with_assertion(
        self,
        alloc: Global,
        name: &Text,
        condition: &Condition,
        attributes: Attributes,
    ) -> Result<Definitions, Refusal>
        ensures taken { IfOk result (λ made. with_assertion name.now condition.now attributes self ≡ Ok made) }
        ensures refused { IfErr result (λ refusal. refusal ≢ NoMemory
            → with_assertion name.now condition.now attributes self ≡ Err refusal) }
    {
        if is_asserted(self.assertions(), name) {
            return Err(Refusal::NameTaken { name: name.copy()? });
        }
        let assertion = check(alloc, &self.catalog, name, condition, attributes)?;
        let Definitions {
            catalog,
            mut assertions,
            rows,
        } = self;
        assertions.push(assertion)?;
        Ok(Definitions {
            catalog,
            assertions,
            rows,
        })
    }

    /// INSERT: no assertion is looked at.
    fn with_inserted(self, alloc: Global, insert: &Insert) -> Result<Definitions, Refusal>
        ensures taken { IfOk result (λ made. tables_after_insert self insert.now ≡ Ok made) }
        ensures refused { IfErr result (λ refusal.
            refusal ≢ NoMemory → tables_after_insert self insert.now ≡ Err refusal) }
    {
        let NewRows { table, rows } = check_insert(alloc, &self.catalog, insert)?;
        self.with_rows(table, rows.as_slice())
    }

    /// These with new rows of a table, each among those before it.
    #[tactic(auto, using(crate::proofs::InsertedRows::row_fault, crate::proofs::InsertedRows::rows_next))]
    fn with_rows(self, table: usize, rows: &[Row]) -> Result<Definitions, Refusal>
        requires { table < length self.declared.tables }
        ensures made { IfOk result (λ made. tables_with_rows table rows.now self ≡ Ok made) }
        ensures refused { IfErr result (λ refusal.
            refusal ≢ NoMemory → tables_with_rows table rows.now self ≡ Err refusal) }
    {
        let mut made = self;
        for row in rows {
            let change = made.insertion(table, row.copy()?)?;
            made = made.with_change(&change)?;
        }
        Ok(made)
    }

    /// CREATE INDEX: its table has such a column. What is defined stays as it is; from here on the rows that have a
    /// value in the column are found in a few steps.
    fn with_index(self, table: &Text, column: &Text) -> Result<Definitions, Refusal>
        ensures taken { IfOk result (λ made. with_index table.now column.now self ≡ Ok made) }
        ensures refused { IfErr result (λ refusal. refusal ≢ NoMemory
            → with_index table.now column.now self ≡ Err refusal) }
    {
        let place = self.indexed_place(table, column)?;
        let Definitions {
            catalog,
            assertions,
            mut rows,
        } = self;
        index_rows(&mut rows, place)?;
        Ok(Definitions {
            catalog,
            assertions,
            rows,
        })
    }

    /// Where an index by this column of this table is to stand.
    fn indexed_place(&self, table: &Text, column: &Text) -> Result<IndexedPlace, Refusal>
        ensures there { OnOk result (with_index table.now column.now self.now ≡ Ok self.now) }
        ensures refused { IfErr result (λ refusal. refusal ≢ NoMemory
            → with_index table.now column.now self.now ≡ Err refusal) }
    {
        let Some(source) = Source::by_table_name(&self.catalog, table) else {
            return Err(Refusal::UnknownName {
                name: table.copy()?,
            });
        };
        match source.scope.schema.column(column) {
            Some(place) => Ok(IndexedPlace {
                table: source.table,
                key: source.scope.schema.key(),
                column: place,
            }),
            None => Err(Refusal::UnknownName {
                name: column.copy()?,
            }),
        }
    }

    /// The change that puts a row into the table at a place.
    fn insertion(&self, table: usize, row: Row) -> Result<Change, Refusal>
        requires { table < length self.now.declared.tables }
        ensures made { IfOk result (λ change. insertion self.now.declared.tables table self.now.state row ≡ Ok change) }
        ensures refused { IfErr result (λ refusal. refusal ≢ NoMemory
            → insertion self.now.declared.tables table self.now.state row ≡ Err refusal) }
        ensures is { IfOk result (λ change. IsChangeOf (layouts_in self.now.declared) change self.now.state) }
        ensures fits { IfOk result (IsFitting (layouts_in self.now.declared)) }
    {
        insertion(
            name_at(&self.catalog, table),
            table,
            schema_at(&self.catalog, table),
            &self.rows[table],
            row,
        )
    }

    /// These with a change of one row.
    fn with_change(self, change: &Change) -> Result<Definitions, AllocError>
        requires is { IsChangeOf (layouts_in self.declared) change.now self.state }
        requires fits { IsFitting (layouts_in self.declared) change.now }
        ensures { IfOk result (λ made. made
            ≡ record self { state = state_after (layouts_in self.declared) change.now self.state }) }
    {
        let Definitions {
            catalog,
            assertions,
            rows,
        } = self;
        let key = schema_at(&catalog, change.table).key();
        let rows = put_change(rows, key, change)?;
        Ok(Definitions {
            catalog,
            assertions,
            rows,
        })
    }
}

/// Whether an assertion has this name.
pub fn is_asserted(assertions: &[Assertion], name: &Text) -> bool
    ensures { result ≡ is_asserted name.now assertions.now }
{
    assertions.iter().any(|assertion| assertion.name == *name)
}

/// The place of a table, of its key column, and of a column by which its rows are indexed.
#[derive(Clone, Copy)]
struct IndexedPlace {
    table: usize,
    key: usize,
    column: usize,
}

/// Indexes the rows of a table by a column.
fn index_rows(rows: &mut [Rows], place: IndexedPlace) -> Result<(), AllocError>
    ensures { rows.new ≡ rows.old }
{
    if place.table < rows.len() {
        rows[place.table] = rows[place.table].with_index(place.key, place.column)?;
    }
    Ok(())
}
