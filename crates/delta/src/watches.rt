//! What is maintained for an assertion.

ghost use Rattle.std.specs.Prelude.{IfOk};
ghost use Rattle.std.specs.Arc.{arc_value};
ghost use Rattle.assertion.specs.Bounded.{IsBounded};
ghost use Rattle.delta.specs.Maintained.{AreAlike, IsGood, IsStep, IsWatched};

use assertion::Form;
use groups::Totals;
use mvrows::Rows;
use roots::{BadRoots, bad_of, is_over, maintained_after, totals_of, truth_of};
use std::alloc::{AllocError, Global};
use std::sync::Arc;
use table::{Change, Schema};
use value::Truth;

/// What is maintained for an assertion: the totals that its set functions are answered from, its bad roots in order,
/// and its truth.
#[derive(Debug, Drop)]
pub struct Watch {
    pub totals: Vec<Totals>,
    pub bad: BadRoots,
    pub truth: Truth,
}

impl Watch {
    /// What is maintained for an assertion on these tables, made in one pass over them.
    pub fn of(
        alloc: Global,
        schemas: &[Schema],
        tables: &[Rows],
        form: &Form,
    ) -> Result<Watch, AllocError>
        requires bounded { IsBounded form.now }
        requires good { IsGood schemas.now tables.now }
        ensures { IfOk result (IsWatched schemas.now tables.now form.now) }
    {
        let totals = totals_of(alloc, schemas, form, tables)?;
        let bad = bad_of(alloc, schemas, tables, form, &totals)?;
        let truth = truth_of(alloc, schemas, tables, form, &totals, &bad)?;
        Ok(Watch { truth, totals, bad })
    }

    /// What is maintained for the assertion after a change, of the tables before and after it.
    pub fn after(
        &self,
        alloc: Global,
        schemas: &[Schema],
        before: &[Rows],
        after: &[Rows],
        form: &Form,
        change: &Change,
    ) -> Result<Watch, AllocError>
        requires bounded { IsBounded form.now }
        requires step { IsStep schemas.now change.now before.now after.now }
        requires watched { IsWatched schemas.now before.now form.now self.now }
        ensures { IfOk result (IsWatched schemas.now after.now form.now) }
    {
        let (totals, bad) = maintained_after(
            alloc,
            schemas,
            before,
            after,
            form,
            &self.totals,
            &self.bad,
            change,
        )?;
        let truth = truth_of(alloc, schemas, after, form, &totals, &bad)?;
        Ok(Watch { totals, bad, truth })
    }

    /// What was changed since it was last shared comes into its place. The watch keeps the same.
    pub fn settle(&mut self)
        ensures { AreAlike self.new self.old }
    {
        for at in 0..self.totals.len() {
            self.totals[at].settle();
        }
    }
}

/// A watch that nobody shares settles.
pub fn settle_watch(watch: &mut Arc<Watch>)
    ensures { AreAlike (arc_value watch.new) (arc_value watch.old) }
{
    if let Some(own) = Arc::get_mut(watch) {
        own.settle();
    }
}

/// What is maintained for an assertion after a change, which is shared where the assertion is not over the changed
/// table.
pub fn watch_after(
    watch: &Arc<Watch>,
    alloc: Global,
    schemas: &[Schema],
    before: &[Rows],
    after: &[Rows],
    form: &Form,
    change: &Change,
) -> Result<Arc<Watch>, AllocError>
    requires bounded { IsBounded form.now }
    requires step { IsStep schemas.now change.now before.now after.now }
    requires watched { IsWatched schemas.now before.now form.now (arc_value watch.now) }
    ensures { IfOk result (λ made. IsWatched schemas.now after.now form.now (arc_value made)) }
{
    if is_over(form, change.table) {
        let made = watch.after(alloc, schemas, before, after, form, change)?;
        Ok(Arc::new(alloc, made)?)
    } else {
        Ok(Arc::try_clone(watch)?)
    }
}
