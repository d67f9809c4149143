//! What the definitions of this crate entail. Each law is the contract of a function that does nothing.

ghost use Rattle.std.specs.Prelude.{◌≡◌, ◌⊎◌, ◌<◌, ℕ, true, false, List, [], ◌++◌, length, map, filter, None, Option, Ok, Contains};
ghost use Rattle.std.specs.List.{list_all};
ghost use Rattle.value.specs.declared.values.Root.{Root};
ghost use Rattle.table.specs.declared.rows.Change.{Change};
ghost use Rattle.table.specs.Rows.{Layout, Tables, layouts_of, key_of};
ghost use Rattle.assertion.specs.declared.forms.Form.{Form};
ghost use Rattle.assertion.specs.Meaning.{State};
ghost use Rattle.assertion.specs.Candidates.{candidates_of};
ghost use Rattle.assertion.specs.Roots.{is_bad_root};
ghost use Rattle.assertion.specs.Changes.{IsOrdered, AreChangesOf, state_after_all};
ghost use Rattle.table.specs.declared.conds.Cond.{Cond};
ghost use Rattle.syntax.specs.declared.trees.Condition.{Condition};
ghost use Rattle.syntax.specs.declared.statements.Assignment.{Assignment};
ghost use Rattle.syntax.specs.declared.statements.Statement.{Statement as AnyStatement};
ghost use Rattle.assertcheck.specs.declared.updates.Setting.{Setting};
ghost use Rattle.assertcheck.specs.declared.updates.Update.{Update};
ghost use Rattle.assertcheck.specs.Updates.{update_of};
ghost use Rattle.siread.specs.declared.keys.Place.{Place};
ghost use Rattle.siread.specs.Keys.{AlikeUnder, are_among, place_of};
ghost use Rattle.alone.specs.States.{row_in, IsState, is_real, AreDue, AreDifferences, change_between, net_change};
ghost use Rattle.alone.specs.Modes.{immediate_ones};
ghost use Rattle.alone.specs.Checks.{keys_for, checks_read};
ghost use Rattle.assertion.specs.Declarations.{Declared, layouts_in};
ghost use Rattle.alone.specs.declared.statements.ResolvedStatement.{ResolvedStatement};
ghost use Rattle.alone.specs.Resolve.{is_read_only, resolution_of};
ghost use Rattle.alone.specs.Statements.{found_rows, delete_effect, renewal, sets_key};
ghost use Rattle.alone.specs.Alone.{Standing, ran, joined_runs, run_on, transaction, transaction_keys, IsSound};

/// The net change between two states has each row in which they differ, with what stands there before and after, and
/// put into the one it gives the other. A list in order that has these rows is the net change, and of changes that
/// are put in one after the other it is those that don't set a row to what it held.
pub fn net_change_is_what_differs()
    ensures all { (layouts : List Layout) (before after : State) → IsState layouts before → IsState layouts after
        → (place : Place) → (row_in layouts before place ≡ row_in layouts after place)
        ⊎ Contains (net_change layouts before after) (change_between layouts before after place) }
    ensures exact { (layouts : List Layout) (before after : State) (change : Change)
        → Contains (net_change layouts before after) change
        → (change ≡ change_between layouts before after (place_of change)) × (change.table < length layouts) }
    ensures only { (layouts : List Layout) (before after : State) → IsState layouts before → IsState layouts after
        → (changes : List Change) → AreDifferences layouts changes before after
        → changes ≡ net_change layouts before after }
    ensures real { (layouts : List Layout) (state : State) → IsState layouts state → (changes : List Change)
        → AreDue layouts changes state
        → filter is_real changes ≡ net_change layouts state (state_after_all layouts changes state) }
    ensures leads { (layouts : List Layout) (before after : State) → IsState layouts before → IsState layouts after
        → state_after_all layouts (net_change layouts before after) before ≡ after }
{}

/// The changes of a DELETE and of an UPDATE that leaves the key stand in order, with the old rows that stand in the
/// state, and changes of which that holds may be put in one after the other.
pub fn changes_are_due()
    ensures removals { (layouts : List Layout) (state : State) → IsState layouts state
        → (table : ℕ) (restriction : Cond) → AreDue layouts
        (delete_effect table (key_of table layouts) (found_rows state table restriction)).changes state }
    ensures renewals { (layouts : List Layout) (state : State) → IsState layouts state
        → (table : ℕ) (sets : List Setting) (restriction : Cond) → sets_key (key_of table layouts) sets ≡ false
        → AreDue layouts (map (renewal table (key_of table layouts) sets) (found_rows state table restriction)) state }
    ensures one_by_one { (layouts : List Layout) (state : State) → IsState layouts state → (changes : List Change)
        → AreDue layouts changes state → AreChangesOf layouts changes state }
{}

/// A checked UPDATE gives the key no value.
pub fn updates_leave_the_key()
    ensures { (tables : Tables) (name : List ℕ) (sets : List Assignment) (condition : Option Condition)
        (update : Update) → update_of tables name sets condition ≡ Ok update
        → sets_key (key_of update.table (layouts_of tables)) update.sets ≡ false }
{}

/// Whether a root is bad depends on the rows under its keys alone, and one that is no candidate of the net change
/// between two states is bad on the one exactly where it is on the other.
pub fn roots_depend_on_their_keys()
    ensures by_keys { (layouts : List Layout) (one other : State) → IsOrdered layouts one → IsOrdered layouts other
        → (form : Form) (root : Root) → AlikeUnder (row_in layouts) (keys_for layouts one form root) one other
        → is_bad_root layouts form one root ≡ is_bad_root layouts form other root }
    ensures others { (layouts : List Layout) (before after : State) → IsState layouts before → IsState layouts after
        → (form : Form) (root : Root)
        → (Contains (candidates_of layouts after (net_change layouts before after) form) root → ⊥)
        → is_bad_root layouts form before root ≡ is_bad_root layouts form after root }
{}

/// Statements one after the other may be run in two parts.
pub fn runs_are_joined()
    ensures { (declared : Declared) (start : State) (now : Standing) (first rest : List ResolvedStatement)
        → ran declared start now (first ++ rest)
        ≡ joined_runs (ran declared start now first) (ran declared start (ran declared start now first).final rest) }
{}

/// A transaction without INSERT, UPDATE and DELETE has no net change, on any tables; and whatever is written, a
/// read-only transaction runs none of them.
pub fn read_only_statements_change_nothing()
    ensures none { (declared : Declared) (trace : List ResolvedStatement) (state : State)
        → list_all is_read_only trace ≡ true
        → (transaction declared trace state).changes ≡ [] }
    ensures each { (declared : Declared) (statement : AnyStatement)
        → is_read_only (resolution_of declared true statement) ≡ true }
{}

/// What a check of the assertions that are immediate at a transaction's end would read, over its net change, the
/// statements have read already, each by its own check: of these assertions COMMIT's check reads nothing new.
pub fn immediate_checks_are_read_once()
    ensures { (declared : Declared) (start : State) → IsSound declared start → (trace : List ResolvedStatement)
        → are_among (checks_read (layouts_in declared) (run_on declared trace start).final.view
        (immediate_ones (run_on declared trace start).final.modes declared.assertions)
        (net_change (layouts_in declared) start (run_on declared trace start).final.view))
        (run_on declared trace start).reads ≡ true }
{}

/// A transaction whose COMMIT is accepted leaves a state on which no assertion is false.
pub fn commits_are_sound()
    ensures { (declared : Declared) (trace : List ResolvedStatement) (state : State) → IsSound declared state
        → (transaction declared trace state).refused ≡ None
        → IsSound declared (state_after_all (layouts_in declared) (transaction declared trace state).changes state) }
{}

/// The agreement law: on two states that make no assertion false and hold the same rows under each key that it reads
/// on the one, a transaction answers the same, its refused statements and a refused COMMIT included, and it reads the
/// same keys.
pub fn transactions_agree()
    ensures same { (declared : Declared) (one other : State) → IsSound declared one → IsSound declared other
        → (trace : List ResolvedStatement)
        → AlikeUnder (row_in (layouts_in declared)) (transaction_keys declared trace one) one other
        → transaction declared trace other ≡ transaction declared trace one }
    ensures keys { (declared : Declared) (one other : State) → IsSound declared one → IsSound declared other
        → (trace : List ResolvedStatement)
        → AlikeUnder (row_in (layouts_in declared)) (transaction_keys declared trace one) one other
        → transaction_keys declared trace other ≡ transaction_keys declared trace one }
{}
