//! Versions of the tables, with the maintained verdicts of the assertions.

ghost use Rattle.std.specs.Prelude.{◌≡◌, ◌<◌, length, map, slice_index_or, All, IfOk};
ghost use Rattle.std.specs.Arc.{arc_value};
ghost use Rattle.std.specs.Option.{option_copied};
ghost use Rattle.table.specs.Rows.{IsTable, layouts_of, row_at, key_of, layout_at};
ghost use Rattle.table.specs.Bounds.{IsSmallRow};
ghost use Rattle.assertion.specs.Bounded.{IsBounded};
ghost use Rattle.assertion.specs.declared.assertions.Assertion.{Assertion as AnyAssertion};
ghost use Rattle.assertion.specs.Candidates.{candidates_of};
ghost use Rattle.assertion.specs.Declarations.{layouts_in};
ghost use Rattle.assertion.specs.Meaning.{least_bad_of, rows_of, verdict_of};
ghost use Rattle.assertion.specs.Changes.{AreChangesOf, IsChangeOf, state_after, state_after_all};
ghost use Rattle.delta.specs.Maintained.{AreAllAlike, AreShort, AreWatched, IsGood};
ghost use Rattle.delta.specs.Parts.{AreAgreed, view_of};
ghost use Rattle.delta.specs.Views.{AreBounded, AreTables, IsFitting, with_assertion, without_assertion};

use crate::declarations::{Declarations, copy_assertions, copy_catalog, schemas_of};
use crate::versions::{
    WatchedAssertions, copy_tables, copy_watches, index_for, index_tables, leave_out,
    settle_tables, settle_watches, tables_after, watches_after, watches_of,
};
use crate::watches::Watch;
use assertion::Assertion;
use mvrows::Rows;
use roots::{candidates, row_under};
use std::alloc::{AllocError, Global};
use std::marker::Model;
use std::sync::Arc;
use table::{Catalog, Change, Row, Schema, key_column};
use value::{Root, Text, Truth, Value};

/// The rows of each table, with the maintained verdicts of the assertions on them. It never changes, and its copies
/// share it.
#[derive(Drop)]
pub struct View {
    parts: Arc<Parts>,
}

/// What a view is made of.
#[derive(Drop)]
struct Parts {
    declarations: Arc<Declarations, Global>,
    tables: Vec<Rows>,
    /// One for each assertion.
    watches: Vec<Arc<Watch>>,
}

impl Model for View {
    ghost use Rattle.std.specs.Arc.{arc_value};
    ghost use Rattle.std.specs.Coded.{codes};
    ghost use Rattle.table.specs.contracts.conds.Cond as cond_type;
    ghost use Rattle.table.specs.contracts.exprs.Expr as expr_type;
    ghost use Rattle.delta.specs.Parts.{AreAgreed, view_of};
    ghost use Rattle.delta.specs.Views.{ViewState};

    ghost Value = { ViewState };

    ghost coded = { Prim.hlevel (codes, cond_type.the_row.coded, expr_type.the_row.coded) };

    ghost view = { λ v. view_of (arc_value v.parts) };

    ghost invariant = { λ v. AreAgreed (arc_value v.parts) };
}

impl View {
    /// The view of these tables, one for each of the catalog, in its order. Where a subquery of an assertion by rows is
    /// linked to another column than the key, one pass is made over the rows for an index by that column.
    pub fn load(
        alloc: Global,
        catalog: Catalog,
        assertions: Vec<Assertion>,
        rows: &[Rows],
    ) -> Result<View, AllocError>
        requires bounded { AreBounded assertions.items }
        requires tables { AreTables (layouts_of catalog) rows.now }
        ensures { IfOk result (λ view. view
            ≡ record { declared = record { tables = catalog; assertions = assertions.items }; state = rows.now }) }
    {
        let schemas = schemas_of(alloc, &catalog)?;
        let tables = index_tables(alloc, &schemas, rows, &assertions)?;
        let watches = watches_of(alloc, &schemas, &tables, &assertions)?;
        let declarations = Declarations {
            catalog,
            schemas,
            assertions,
        };
        View::of(
            alloc,
            Parts {
                declarations: Arc::new(alloc, declarations)?,
                tables,
                watches,
            },
        )
    }

    /// The view that has these parts, which agree.
    fn of(alloc: Global, parts: Parts) -> Result<View, AllocError>
        requires { AreAgreed parts }
        ensures { IfOk result (λ view. view ≡ view_of parts) }
    {
        Ok(View {
            parts: Arc::new(alloc, parts)?,
        })
    }

    /// The schema of a table.
    pub fn schema(&self, table: usize) -> &Schema
        requires { table < length self.now.state }
        ensures { result.now ≡ layout_at table (layouts_in self.now.declared) }
    {
        &self.parts.declarations.schemas[table]
    }

    /// The view after a change of one row. The change names what stands under its key now, and this view stays as it
    /// is. Only memory can fail.
    pub fn with(&self, change: &Change) -> Result<View, AllocError>
        requires is { IsChangeOf (layouts_in self.now.declared) change.now self.now.state }
        requires fits { IsFitting (layouts_in self.now.declared) change.now }
        ensures { IfOk result (λ view. view
            ≡ record self.now { state = state_after (layouts_in self.now.declared) change.now self.now.state }) }
    {
        let alloc = *self.parts.tables.allocator();
        let declarations = Arc::try_clone(&self.parts.declarations)?;
        let schemas = &self.parts.declarations.schemas;
        let tables = tables_after(alloc, schemas, &self.parts.tables, change)?;
        let watches = watches_after(
            alloc,
            schemas,
            &self.parts.tables,
            &tables,
            &self.parts.declarations.assertions,
            &self.parts.watches,
            change,
        )?;
        View::of(
            alloc,
            Parts {
                declarations,
                tables,
                watches,
            },
        )
    }

    /// The view after changes of rows, put in one after the other. Each names what stands under its key when its turn
    /// comes, and this view stays as it is. Only memory can fail.
    pub fn after(&self, changes: &[Change]) -> Result<View, AllocError>
        requires are { AreChangesOf (layouts_in self.now.declared) changes.now self.now.state }
        requires fit { All (IsFitting (layouts_in self.now.declared)) changes.now }
        ensures { IfOk result (λ view. view
            ≡ record self.now { state = state_after_all (layouts_in self.now.declared) changes.now self.now.state }) }
    {
        let mut view = self.copy()?;
        for change in changes {
            view = view.with(change)?;
        }
        Ok(view)
    }

    /// A view equal to this one.
    pub fn copy(&self) -> Result<View, AllocError>
        ensures { IfOk result (λ copy. copy ≡ self.now) }
    {
        Ok(View {
            parts: Arc::try_clone(&self.parts)?,
        })
    }

    /// What was changed since it was last shared comes into its place, where nobody shares what is around it: the next
    /// view has less to copy then. The view stays as it is, also where memory runs out.
    pub fn settle(&mut self)
        ensures { self.new ≡ self.old }
    {
        settle_parts(&mut self.parts);
    }

    /// The view of the same tables with an assertion behind the others. One pass is made over the tables for it, and
    /// one for each index that its links ask for; what is maintained for the others is shared with this view, which
    /// stays as it is. Only memory can fail.
    pub fn with_assertion(&self, assertion: Assertion) -> Result<View, AllocError>
        requires bounded { IsBounded assertion.form }
        ensures { IfOk result (λ view. view
            ≡ record self.now { declared = with_assertion assertion self.now.declared }) }
    {
        let parts = &*self.parts;
        let alloc = *parts.tables.allocator();
        let schemas = &parts.declarations.schemas;
        let tables = index_for(alloc, schemas, &parts.tables, &assertion.form)?;
        let watch = Watch::of(alloc, schemas, &tables, &assertion.form)?;
        let mut watches = copy_watches(alloc, &parts.watches)?;
        watches.push(Arc::new(alloc, watch)?)?;
        let mut assertions = copy_assertions(alloc, &parts.declarations.assertions)?;
        assertions.push(assertion)?;
        self.redeclare(
            alloc,
            tables,
            WatchedAssertions {
                assertions,
                watches,
            },
        )
    }

    /// The view of the same tables without the assertions of a name. What is maintained for the others is shared with
    /// this view, which stays as it is; so are the indexes of the tables. Only memory can fail.
    pub fn without_assertion(&self, name: &Text) -> Result<View, AllocError>
        ensures { IfOk result (λ view. view
            ≡ record self.now { declared = without_assertion name.now self.now.declared }) }
    {
        let parts = &*self.parts;
        let alloc = *parts.tables.allocator();
        let tables = copy_tables(alloc, &parts.tables)?;
        let left = leave_out(
            alloc,
            &parts.declarations.schemas,
            &parts.tables,
            &parts.declarations.assertions,
            &parts.watches,
            name,
        )?;
        self.redeclare(alloc, tables, left)
    }

    /// The view of these tables, which are the same, with other assertions, for which this is maintained.
    fn redeclare(
        &self,
        alloc: Global,
        tables: Vec<Rows>,
        watched: WatchedAssertions,
    ) -> Result<View, AllocError>
        requires tables { tables.items ≡ self.now.state }
        requires short { AreShort tables.items }
        requires bounded { AreBounded watched.assertions.items }
        requires watched { AreWatched (layouts_in self.now.declared) self.now.state watched.assertions.items
            (length watched.assertions.items) (map arc_value watched.watches.items) }
        ensures { IfOk result (λ view. view ≡ record self.now {
          declared = record self.now.declared { assertions = watched.assertions.items };
        }) }
    {
        let WatchedAssertions {
            assertions,
            watches,
        } = watched;
        let catalog = copy_catalog(alloc, &self.parts.declarations.catalog)?;
        let schemas = schemas_of(alloc, &catalog)?;
        let declarations = Declarations {
            catalog,
            schemas,
            assertions,
        };
        View::of(
            alloc,
            Parts {
                declarations: Arc::new(alloc, declarations)?,
                tables,
                watches,
            },
        )
    }

    /// The tables that there are.
    pub fn catalog(&self) -> &Catalog
        ensures value { result.now ≡ self.now.declared.tables }
        ensures tables { AreTables (layouts_in self.now.declared) self.now.state }
    {
        &self.parts.declarations.catalog
    }

    /// The assertions on the tables.
    pub fn assertions(&self) -> &[Assertion]
        ensures value { result.now ≡ self.now.declared.assertions }
        ensures bounded { AreBounded self.now.declared.assertions }
    {
        self.parts.declarations.assertions.as_slice()
    }

    /// The rows of a table in key order, each fitting its columns, so that its numbers are within their bounds.
    pub fn rows(&self, table: usize) -> &Rows
        requires { table < length self.now.state }
        ensures value { result.now ≡ rows_of table self.now.state }
        ensures table { IsTable (layout_at table (layouts_in self.now.declared)) result.now }
        ensures small { All IsSmallRow result.now }
    {
        &self.parts.tables[table]
    }

    /// The rows of each table, in the order of the catalog, shared with this view. Only memory can fail.
    pub fn copy_rows(&self) -> Result<Vec<Rows>, AllocError>
        ensures equal { IfOk result (λ rows. rows.items ≡ self.now.state) }
        ensures good { IfOk result (λ rows. IsGood (layouts_in self.now.declared) rows.items) }
    {
        copy_tables(*self.parts.tables.allocator(), &self.parts.tables)
    }

    /// The place of a table's key column; 0 where there is no such table.
    pub fn key_column(&self, table: usize) -> usize
        ensures { result ≡ key_of table (layouts_in self.now.declared) }
    {
        key_column(&self.parts.declarations.schemas, table)
    }

    /// The row under a key of a table, if there is one.
    pub fn row(&self, table: usize, key: &Value) -> Option<&Row>
        ensures { option_copied result
            ≡ row_at (key_of table (layouts_in self.now.declared)) key.now (rows_of table self.now.state) }
    {
        row_under(
            &self.parts.declarations.schemas,
            &self.parts.tables,
            table,
            key,
        )
    }

    /// The roots at which an assertion can be another after the changes that led to this view than before them.
    pub fn candidates(&self, assertion: usize, changes: &[Change]) -> Result<Vec<Root>, AllocError>
        requires { assertion < length self.now.declared.assertions }
        ensures { IfOk result (λ roots. (a : AnyAssertion) → roots.items
            ≡ candidates_of (layouts_in self.now.declared) self.now.state changes.now
            (slice_index_or self.now.declared.assertions assertion a).form) }
    {
        candidates(
            *self.parts.tables.allocator(),
            &self.parts.declarations.schemas,
            &self.parts.tables,
            &self.parts.declarations.assertions[assertion].form,
            changes,
        )
    }

    /// The truth of an assertion on the tables: what evaluating it afresh gives.
    pub fn verdict(&self, assertion: usize) -> Truth
        requires { assertion < length self.now.declared.assertions }
        ensures { (a : AnyAssertion)
            → result ≡ verdict_of (layouts_in self.now.declared)
            (slice_index_or self.now.declared.assertions assertion a).form self.now.state }
    {
        self.parts.watches[assertion].truth
    }

    /// The least root at which an assertion is false, if it is false.
    pub fn least_bad(&self, assertion: usize) -> Option<&Root>
        requires { assertion < length self.now.declared.assertions }
        ensures { (a : AnyAssertion)
            → option_copied result ≡ least_bad_of (layouts_in self.now.declared)
            (slice_index_or self.now.declared.assertions assertion a).form self.now.state }
    {
        self.parts.watches[assertion].bad.first()
    }
}

/// Parts that nobody shares settle.
fn settle_parts(parts: &mut Arc<Parts>)
    ensures declarations { (arc_value parts.new).declarations ≡ (arc_value parts.old).declarations }
    ensures tables { (arc_value parts.new).tables.items ≡ (arc_value parts.old).tables.items }
    ensures watches { AreAllAlike (map arc_value (arc_value parts.new).watches.items)
        (map arc_value (arc_value parts.old).watches.items) }
{
    if let Some(own) = Arc::get_mut(parts) {
        settle_tables(&mut own.tables);
        settle_watches(&mut own.watches);
    }
}
