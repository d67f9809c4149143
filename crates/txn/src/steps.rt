//! A statement of a transaction alone.

ghost use Rattle.std.specs.Prelude.{◌≡◌, ◌≢◌, ◌<◌, ◌++◌, [], ◌∷◌, length, map, true, unwrap_or, IfOk, OnErr, OnOk, Ok, Err, None, Some};
ghost use Rattle.value.specs.Ordered.{HoldsOf};
ghost use Rattle.value.specs.declared.refusals.Refusal.TheVariants.{NoMemory};
ghost use Rattle.assertion.specs.Declarations.{layouts_in};
ghost use Rattle.assertion.specs.Meaning.{State};
ghost use Rattle.table.specs.Rows.{key_of};
ghost use Rattle.siread.specs.declared.keys.LockKey.TheVariants.{Row as OneRow};
ghost use Rattle.alone.specs.Modes.{Immediates, assertion_of, is_immediate, modes_with};
ghost use Rattle.alone.specs.declared.answers.Reply.TheVariants as replies;
ghost use Rattle.alone.specs.declared.answers.Reply.TheVariants.{ModesSet};
ghost use Rattle.alone.specs.Alone.{step_of_effect, modes_step, step_alone, verdict_step};
ghost use Rattle.alone.specs.Reads.{filter_key};
ghost use Rattle.alone.specs.States.{IsState, net_change};
ghost use Rattle.alone.specs.Statements.{Effect as AnyEffect, found_rows, places_in, place_in, listed_rows};
ghost use Rattle.changes.specs.Nets.{AreChangesBetween, AreNoted};
ghost use Rattle.txn.specs.Effects.{ArePutIn};
ghost use Rattle.txn.specs.Runnable.{IsRunnable, IsRunnableDelete, IsRunnableSelect, IsRunnableUpdate};
ghost use Rattle.txn.specs.Steps.{ArePut, HasApplied, IsDone, IsKnown, IsLeft, IsOf, delete_step, insert_step, left_by, shown_effect, standing_with, update_step};

use crate::applied::{AppliedEffect, apply, apply_insert};
use crate::checks::{find_assertion, find_violation};
use crate::effects::{Effect, delete_effect, filter_on, recall_order, recall_table, update_effect};
use crate::resolutions::unless_memory;
use alone::{Modes, Reply, ResolvedStatement};
use assertcheck::{Delete, NewRows, Select, Update};
use changes::{TouchedRows, checks_read, listed_rows, push_checks, tables_read};
use delta::View;
use siread::{LockKey, Place};
use sqlite_items::Items;
use std::alloc::{AllocError, Global};
use syntax::Mode;
use table::{Change, Row};
use value::{Refusal, Text, Value};

/// What a statement answered, a refusal among the answers, what it left where that is another than before, and what
/// it read.
#[derive(Drop)]
pub struct StepResult {
    pub reply: Result<Reply, Refusal>,
    pub view: Option<View>,
    pub modes: Option<Modes>,
    /// The rows that it changed.
    pub changes: Vec<Change>,
    /// The keys under which it read.
    pub reads: Vec<LockKey>,
}

/// Runs a statement alone, on a transaction's own view and modes, of whose difference from the tables at its start is
/// noted. Only memory can fail; a statement that is refused is done, and its reply is the refusal.
pub fn step(
    alloc: Global,
    own: &View,
    modes: &Modes,
    touched: &TouchedRows,
    statement: &ResolvedStatement,
) -> Result<StepResult, AllocError>
    requires runnable { IsRunnable own.now.declared statement.now }
    requires modes { length modes.now ≡ length own.now.declared.assertions }
    ensures done { IfOk result (λ done. (start : State)
        → IsState (layouts_in own.now.declared) start
        → AreNoted (layouts_in own.now.declared) start own.now.state touched.now
        → IsDone (standing_with own.now modes.now)
        (step_alone own.now.declared start (standing_with own.now modes.now) statement.now) done) }
    ensures of { IfOk result (IsOf own.now.declared) }
    ensures known { IfOk result IsKnown }
    ensures changes { IfOk result (λ done.
        AreChangesBetween (layouts_in own.now.declared) own.now.state
        (left_by (standing_with own.now modes.now) done).view done.changes.items) }
{
    match statement {
        ResolvedStatement::Refused(refusal) => Ok(refuse_with(refusal.copy()?, Vec::new(alloc))),
        ResolvedStatement::Insert(new) => run_insert(alloc, own, modes, new),
        ResolvedStatement::Update(update) => run_update(alloc, own, modes, update),
        ResolvedStatement::Delete(delete) => run_delete(alloc, own, modes, delete),
        ResolvedStatement::Select(select) => run_select(alloc, own, select),
        ResolvedStatement::SetModes { names, mode } => {
            run_set_constraints(alloc, own, modes, touched, names.as_slice(), *mode)
        }
        ResolvedStatement::Verdict(name) => run_verdict(alloc, own, name),
    }
}

/// It was answered, and nothing has changed.
fn answer_with(reply: Reply, reads: Vec<LockKey>) -> StepResult
    ensures reply { result.reply ≡ Ok reply }
    ensures same { (result.view ≡ None) × (result.modes ≡ None) × (result.changes.items ≡ []) }
    ensures reads { result.reads.items ≡ reads.items }
{
    StepResult {
        reply: Ok(reply),
        view: None,
        modes: None,
        changes: Vec::new(*reads.allocator()),
        reads,
    }
}

/// It was refused, and nothing has changed.
fn refuse_with(refusal: Refusal, reads: Vec<LockKey>) -> StepResult
    ensures reply { result.reply ≡ Err refusal }
    ensures same { (result.view ≡ None) × (result.modes ≡ None) × (result.changes.items ≡ []) }
    ensures reads { result.reads.items ≡ reads.items }
{
    StepResult {
        reply: Err(refusal),
        view: None,
        modes: None,
        changes: Vec::new(*reads.allocator()),
        reads,
    }
}

/// The same, of a refusal that may be that no memory was left, which is an error.
fn refuse_unless_memory(refusal: Refusal, reads: Vec<LockKey>) -> Result<StepResult, AllocError>
    ensures known { IfOk result IsKnown }
    ensures reply { IfOk result (λ done. done.reply ≡ Err refusal) }
    ensures same { IfOk result (λ done. (done.view ≡ None) × (done.modes ≡ None) × (done.changes.items ≡ [])) }
    ensures reads { IfOk result (λ done. done.reads.items ≡ reads.items) }
{
    let refusal = unless_memory(refusal)?;
    Ok(refuse_with(refusal, reads))
}

/// One key, with room for two more, which the check of a change by groups reads.
fn list_one(alloc: Global, key: LockKey) -> Result<Vec<LockKey>, AllocError>
    ensures { IfOk result (λ keys. keys.items ≡ key ∷ []) }
{
    let mut keys = Vec::with_capacity(alloc, 3)?;
    keys.push(key)?;
    Ok(keys)
}

/// INSERT, which reads the rows of its keys.
fn run_insert(
    alloc: Global,
    own: &View,
    modes: &Modes,
    new: &NewRows,
) -> Result<StepResult, AllocError>
    requires table_in { new.now.table < length own.now.declared.tables }
    requires modes { length modes.now ≡ length own.now.declared.assertions }
    ensures done { IfOk result (IsDone (standing_with own.now modes.now) (insert_step own.now modes.now new.now)) }
    ensures of { IfOk result (IsOf own.now.declared) }
    ensures known { IfOk result IsKnown }
    ensures changes { IfOk result (λ done.
        AreChangesBetween (layouts_in own.now.declared) own.now.state
        (left_by (standing_with own.now modes.now) done).view done.changes.items) }
{
    let reads = list_places(alloc, own, new)?;
    match apply_insert(alloc, own, new) {
        Ok(applied) => check_applied(own, modes, reads, applied),
        Err(refusal) => refuse_unless_memory(refusal, reads),
    }
}

/// UPDATE, which reads what its condition names.
fn run_update(
    alloc: Global,
    own: &View,
    modes: &Modes,
    update: &Update,
) -> Result<StepResult, AllocError>
    requires runnable { IsRunnableUpdate own.now.declared update.now }
    requires modes { length modes.now ≡ length own.now.declared.assertions }
    ensures done { IfOk result (IsDone (standing_with own.now modes.now) (update_step own.now modes.now update.now)) }
    ensures of { IfOk result (IsOf own.now.declared) }
    ensures known { IfOk result IsKnown }
    ensures changes { IfOk result (λ done.
        AreChangesBetween (layouts_in own.now.declared) own.now.state
        (left_by (standing_with own.now modes.now) done).view done.changes.items) }
{
    let filter = filter_on(own, update.table, &update.filter)?;
    let made = update_effect(alloc, own, update.sets.as_slice(), &filter);
    let reads = list_one(alloc, filter.into_read())?;
    match made {
        Ok(effect) => put_in(own, modes, reads, effect),
        Err(refusal) => refuse_unless_memory(refusal, reads),
    }
}

/// DELETE, which reads what its condition names.
fn run_delete(
    alloc: Global,
    own: &View,
    modes: &Modes,
    delete: &Delete,
) -> Result<StepResult, AllocError>
    requires runnable { IsRunnableDelete own.now.declared delete.now }
    requires modes { length modes.now ≡ length own.now.declared.assertions }
    ensures done { IfOk result (IsDone (standing_with own.now modes.now) (delete_step own.now modes.now delete.now)) }
    ensures of { IfOk result (IsOf own.now.declared) }
    ensures known { IfOk result IsKnown }
    ensures changes { IfOk result (λ done.
        AreChangesBetween (layouts_in own.now.declared) own.now.state
        (left_by (standing_with own.now modes.now) done).view done.changes.items) }
{
    let filter = filter_on(own, delete.table, &delete.filter)?;
    let effect = delete_effect(alloc, own, &filter)?;
    let reads = list_one(alloc, filter.into_read())?;
    put_in(own, modes, reads, effect)
}

/// The places at which new rows are to stand, with room for two keys more, which the check of a change by groups reads.
fn list_places(alloc: Global, own: &View, new: &NewRows) -> Result<Vec<LockKey>, AllocError>
    requires table_in { new.now.table < length own.now.declared.tables }
    ensures { IfOk result (λ keys. keys.items ≡ map OneRow (places_in (layouts_in own.now.declared) new.now)) }
{
    let rows = new.rows.as_slice();
    let mut keys = Vec::with_capacity(alloc, rows.len().saturating_add(2))?;
    for row in rows {
        let place = place_in(own, new.table, row)?;
        keys.push(LockKey::Row(place))?;
    }
    Ok(keys)
}

/// The place at which a new row of a table is to stand.
fn place_in(own: &View, table: usize, row: &Row) -> Result<Place, AllocError>
    requires table_in { table < length own.now.declared.tables }
    ensures { IfOk result (λ place. place ≡ place_in (layouts_in own.now.declared) table row.now) }
{
    // (that there are rows for each table is a clause of the catalog)
    let _ = own.catalog();
    let key = match row.values().get(own.schema(table).key()) {
        Some(key) => key.copy()?,
        None => Value::Null,
    };
    Ok(Place { table, key })
}

/// Puts an effect in, and checks the immediate assertions on what it leaves. `reads` is what it was found under.
fn put_in(
    own: &View,
    modes: &Modes,
    reads: Vec<LockKey>,
    effect: Effect,
) -> Result<StepResult, AllocError>
    requires modes { length modes.now ≡ length own.now.declared.assertions }
    requires changes { ArePutIn (layouts_in own.now.declared) effect.changes.items own.now.state }
    ensures done { IfOk result (IsDone (standing_with own.now modes.now)
        (step_of_effect own.now.declared (standing_with own.now modes.now) reads.items (Ok (shown_effect effect)))) }
    ensures of { IfOk result (IsOf own.now.declared) }
    ensures known { IfOk result IsKnown }
    ensures changes { IfOk result (λ done.
        AreChangesBetween (layouts_in own.now.declared) own.now.state
        (left_by (standing_with own.now modes.now) done).view done.changes.items) }
{
    let applied = apply(own, effect)?;
    check_applied(own, modes, reads, applied)
}

/// Checks the immediate assertions on what an effect has left. `reads` is what it was found under.
fn check_applied(
    own: &View,
    modes: &Modes,
    reads: Vec<LockKey>,
    applied: AppliedEffect,
) -> Result<StepResult, AllocError>
    requires modes { length modes.now ≡ length own.now.declared.assertions }
    requires declared { applied.view.declared ≡ own.now.declared }
    requires changes { applied.changes.items
        ≡ net_change (layouts_in own.now.declared) own.now.state applied.view.state }
    ensures done { IfOk result (λ done. (effect : AnyEffect) → HasApplied own.now effect applied
        → IsDone (standing_with own.now modes.now)
        (step_of_effect own.now.declared (standing_with own.now modes.now) reads.items (Ok effect)) done) }
    ensures of { IfOk result (IsOf own.now.declared) }
    ensures known { IfOk result IsKnown }
    ensures changes { IfOk result (λ done.
        AreChangesBetween (layouts_in own.now.declared) own.now.state
        (left_by (standing_with own.now modes.now) done).view done.changes.items) }
{
    let AppliedEffect {
        reply,
        view,
        changes,
    } = applied;
    let mut reads = reads;
    recall_order(own);
    recall_order(&view);
    push_checks(&mut reads, &view, modes, changes.as_slice())?;
    let violated = find_violation(&view, modes)?;
    Ok(leave_rows_unless(violated, reply, view, changes, reads))
}

/// These rows are left, unless an assertion is violated.
fn leave_rows_unless(
    violated: Option<Refusal>,
    reply: Reply,
    after: View,
    changes: Vec<Change>,
    reads: Vec<LockKey>,
) -> StepResult
    requires named { HoldsOf (λ refusal. refusal ≢ NoMemory) violated }
    ensures known { IsKnown result }
    ensures left { IsLeft violated reply (Some after) None result }
    ensures changes { ArePut violated changes.items result.changes.items }
    ensures reads { result.reads.items ≡ reads.items }
{
    match violated {
        Some(refusal) => refuse_with(refusal, reads),
        None => StepResult {
            reply: Ok(reply),
            view: Some(after),
            modes: None,
            changes,
            reads,
        },
    }
}

/// These modes are set, unless an assertion is violated.
fn leave_modes_unless(violated: Option<Refusal>, modes: Modes, reads: Vec<LockKey>) -> StepResult
    requires named { HoldsOf (λ refusal. refusal ≢ NoMemory) violated }
    ensures known { IsKnown result }
    ensures left { IsLeft violated ModesSet None (Some modes) result }
    ensures changes { result.changes.items ≡ [] }
    ensures reads { result.reads.items ≡ reads.items }
{
    match violated {
        Some(refusal) => refuse_with(refusal, reads),
        None => StepResult {
            reply: Ok(Reply::ModesSet),
            view: None,
            modes: Some(modes),
            changes: Vec::new(*reads.allocator()),
            reads,
        },
    }
}

/// SELECT: what it lists of the rows that its condition keeps.
fn run_select(alloc: Global, own: &View, select: &Select) -> Result<StepResult, AllocError>
    requires runnable { IsRunnableSelect own.now.declared select.now }
    ensures reply { IfOk result (λ done.
        done.reply
        ≡ Ok (replies.Rows
        (listed_rows select.now.listing (found_rows own.now.state select.now.table select.now.filter)))) }
    ensures same { IfOk result (λ done. (done.view ≡ None) × (done.modes ≡ None) × (done.changes.items ≡ [])) }
    ensures reads { IfOk result (λ done.
        done.reads.items
        ≡ filter_key select.now.table (key_of select.now.table (layouts_in own.now.declared)) select.now.filter ∷ []) }
{
    let filter = filter_on(own, select.table, &select.filter)?;
    recall_table(own, select.table);
    let rows = listed_rows(alloc, own.rows(select.table), &select.listing, &filter)?;
    let reads = list_one(alloc, filter.into_read())?;
    Ok(answer_with(Reply::Rows(Items::from_vec(rows)), reads))
}

/// SET CONSTRAINTS. IMMEDIATE checks the assertions that it names over the net change so far, and where one is
/// false no mode changes.
fn run_set_constraints(
    alloc: Global,
    own: &View,
    modes: &Modes,
    touched: &TouchedRows,
    names: &[Text],
    mode: Mode,
) -> Result<StepResult, AllocError>
    requires modes { length modes.now ≡ length own.now.declared.assertions }
    ensures done { IfOk result (λ done. (start : State)
        → IsState (layouts_in own.now.declared) start
        → AreNoted (layouts_in own.now.declared) start own.now.state touched.now
        → IsDone (standing_with own.now modes.now)
        (modes_step own.now.declared start names.now (is_immediate mode) (standing_with own.now modes.now)) done) }
    ensures of { IfOk result (IsOf own.now.declared) }
    ensures known { IfOk result IsKnown }
    ensures rows { IfOk result (λ done. (done.view ≡ None) × (done.changes.items ≡ [])) }
{
    match mode {
        Mode::Deferred => {
            let after = set_modes(alloc, own, modes, names, Mode::Deferred)?;
            Ok(leave_modes_unless(None, after, Vec::new(alloc)))
        }
        Mode::Immediate => {
            recall_order(own);
            let net = touched.net_change(alloc)?;
            set_immediate(alloc, own, modes, names, net.as_slice())
        }
    }
}

/// The modes after those of some assertions are set, by their names.
fn set_modes(
    alloc: Global,
    own: &View,
    modes: &Modes,
    names: &[Text],
    mode: Mode,
) -> Result<Modes, AllocError>
    requires modes { length modes.now ≡ length own.now.declared.assertions }
    ensures set { IfOk result (λ after.
        after ≡ modes_with names.now (is_immediate mode) own.now.declared.assertions modes.now) }
    ensures long { IfOk result (λ after. length after ≡ length own.now.declared.assertions) }
{
    let after = modes.set(alloc, own.assertions(), names, mode)?;
    Ok(after)
}

/// SET CONSTRAINTS .. IMMEDIATE, where this is the net change so far.
fn set_immediate(
    alloc: Global,
    own: &View,
    modes: &Modes,
    names: &[Text],
    net: &[Change],
) -> Result<StepResult, AllocError>
    requires modes { length modes.now ≡ length own.now.declared.assertions }
    ensures done { IfOk result (λ done. (start : State)
        → net.now ≡ net_change (layouts_in own.now.declared) start own.now.state
        → IsDone (standing_with own.now modes.now)
        (modes_step own.now.declared start names.now true (standing_with own.now modes.now)) done) }
    ensures of { IfOk result (IsOf own.now.declared) }
    ensures known { IfOk result IsKnown }
    ensures rows { IfOk result (λ done. (done.view ≡ None) × (done.changes.items ≡ [])) }
{
    let meant = Modes::named_immediate(alloc, own.assertions(), names)?;
    let reads = checks_read(alloc, own, &meant, net)?;
    let violated = find_violation(own, &meant)?;
    let after = set_modes(alloc, own, modes, names, Mode::Immediate)?;
    Ok(leave_modes_unless(violated, after, reads))
}

/// VERDICT: the truth of the assertion of a name on the own view. It reads the tables that the assertion names.
fn run_verdict(alloc: Global, own: &View, name: &Text) -> Result<StepResult, AllocError>
    ensures known { IfOk result IsKnown }
    ensures done { IfOk result (λ done. (modes : Immediates)
        → IsDone (standing_with own.now modes)
        (verdict_step own.now.declared (assertion_of name.now own.now.declared.assertions) name.now
        (standing_with own.now modes)) done) }
    ensures same { IfOk result (λ done. (done.view ≡ None) × (done.modes ≡ None) × (done.changes.items ≡ [])) }
{
    match find_assertion(own.assertions(), name) {
        Some(place) => {
            let reads = tables_read(alloc, &own.assertions()[place].form)?;
            Ok(answer_with(Reply::Verdict(own.verdict(place)), reads))
        }
        None => Ok(refuse_with(Refusal::UnknownName { name: name.copy()? }, Vec::new(alloc))),
    }
}

/// These keys, and then those. An error leaves them as they were.
pub fn append(keys: &mut Vec<LockKey>, more: Vec<LockKey>) -> Result<(), AllocError>
    ensures both { OnOk result (keys.new.items ≡ keys.old.items ++ more.items) }
    ensures same { OnErr result (keys.new.items ≡ keys.old.items) }
{
    if keys.is_empty() {
        *keys = more;
        return Ok(());
    }
    let mut more = more;
    keys.append(&mut more)?;
    Ok(())
}

/// Copies of these keys, and then those; none where those are none.
pub fn copy_unless_none(
    alloc: Global,
    keys: &[LockKey],
    more: Vec<LockKey>,
) -> Result<Option<Items<LockKey>>, AllocError>
    ensures { IfOk result (λ both. unwrap_or both keys.now ≡ keys.now ++ more.items) }
{
    if more.is_empty() {
        return Ok(None);
    }
    let both = copy_with(alloc, keys, more)?;
    Ok(Some(Items::from_vec(both)))
}

/// Copies of these keys, and then those.
fn copy_with(
    alloc: Global,
    keys: &[LockKey],
    more: Vec<LockKey>,
) -> Result<Vec<LockKey>, AllocError>
    ensures { IfOk result (λ both. both.items ≡ keys.now ++ more.items) }
{
    let mut both = Vec::with_capacity(alloc, keys.len().saturating_add(more.len()))?;
    for key in keys {
        both.push(key.copy()?)?;
    }
    append(&mut both, more)?;
    Ok(both)
}
