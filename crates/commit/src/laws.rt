//! What the definitions of this crate entail.

ghost use Rattle.std.specs.Prelude.{◌≡◌, ◌++◌, ◌∷◌, [], ℕ, Bool, true, List, Result, IsPermutation};
ghost use Rattle.value.specs.declared.refusals.Refusal.{Refusal as AnyRefusal};
ghost use Rattle.alone.specs.Commits.{IsLog};
ghost use Rattle.alone.specs.Order.{IsFixed, IsKept, IsPutIn, IsSerial, StandBySnapshot, serial_order};
ghost use Rattle.alone.specs.declared.records.Record.{Record};
ghost use Rattle.alone.specs.declared.statements.ResolvedStatement.{ResolvedStatement};
ghost use Rattle.delta.specs.Views.{ViewState};
ghost use Rattle.txn.specs.Transactions.{OpenTransaction, transaction_at_begin, outcome_of, run_of, step_of, with_statement};
ghost use Rattle.commit.specs.Cores.{CoreState, IsCommitAnswer, IsLive, IsSerializable, core_after_commit, core_after_end, log_of, refused_to, with_begun};
ghost use Rattle.commit.specs.Fitting.{AllFit, ShownFit};
ghost use Rattle.commit.specs.Runs.{InEachRun};
ghost use Rattle.commit.specs.Safe.{IsNotForOthers, IsSafeReader};
ghost use Rattle.commit.specs.Told.{WereToldAlone};

use alone::{commits_have_an_order, replay_answers_again, runs_are_joined};

/// The order law, of any list of commits each of which was accepted over those before it: in its serial order each
/// stands once, after all that its snapshot holds, after the earlier writers of its rows, and before all to which it
/// conflicts. One that is read only stands right behind the number of its snapshot. One commit more leaves the others
/// as they stood, and is put in by its rank.
pub fn order()
    ensures once { (log : List Record) → IsLog log → IsPermutation log (serial_order log) }
    ensures serial { (log : List Record) → IsLog log → IsSerial log (serial_order log) }
    ensures readers { (log : List Record) → IsLog log → StandBySnapshot log (serial_order log) }
    ensures kept { (commit : Record) (earlier : List Record) → IsLog (commit ∷ earlier) → IsKept commit earlier }
    ensures fixed { (commit : Record) (earlier : List Record) → IsLog (commit ∷ earlier) → IsFixed commit earlier }
    ensures put_in { (commit : Record) (earlier : List Record) → IsLog (commit ∷ earlier) → IsPutIn commit earlier }
{
    commits_have_an_order();
}

/// The replies that a transaction's statements were given, one by one on its own view, are those of its trace run
/// alone: none at its BEGIN, and one more with each statement. So what a record's trace answers on its snapshot is
/// what its session was told.
pub fn replies_are_those_alone()
    ensures first { (begin_number snapshot : ℕ) (read_only : Bool) (shown : ViewState)
        → (run_of (transaction_at_begin begin_number snapshot read_only shown)).replies ≡ [] }
    ensures next { (t : OpenTransaction) (statement : ResolvedStatement)
        → (run_of (with_statement t statement)).replies ≡ (run_of t).replies ++ (step_of t statement).reply ∷ [] }
{
    runs_are_joined();
}

/// A read-only transaction that is safe is never refused for what others read and wrote ([`value::Refusal::Dangerous`],
/// [`value::Refusal::WriteConflict`]): neither now, nor later, since it stays safe whatever others do. It is safe once
/// each transaction that may write, and that began on older tables than it did, has ended, and none of them has
/// committed with a conflict to a commit that its snapshot holds (Ports and Grittner 2012, on safe snapshots).
pub fn safe_readers_are_never_refused()
    ensures answered { (c : CoreState) (session : List ℕ) (t : OpenTransaction) → IsLog (log_of c)
        → (t.read_only ≡ true → (outcome_of t).changes ≡ []) → IsSafeReader c t
        → (answer : Result ℕ AnyRefusal) → IsCommitAnswer c session t answer → IsNotForOthers answer }
    ensures begun { (c : CoreState) (t : OpenTransaction) → IsLive c t → IsSafeReader c t
        → (read_only : Bool) → IsSafeReader (with_begun read_only c) t }
    ensures ended { (c : CoreState) (t : OpenTransaction) → IsLive c t → IsSafeReader c t
        → (other : OpenTransaction) → IsSafeReader (core_after_end c other) t }
    ensures refused { (c : CoreState) (t : OpenTransaction) → IsLive c t → IsSafeReader c t
        → (session : List ℕ) (other : OpenTransaction) (refusal : AnyRefusal)
        → IsSafeReader (refused_to c session other refusal) t }
    ensures committed { (c : CoreState) (t : OpenTransaction) → IsLive c t → IsSafeReader c t
        → (session : List ℕ) (other : OpenTransaction) → IsLog (log_of (core_after_commit c session other))
        → IsLive c other
        → IsSafeReader (core_after_commit c session other) t }
{}

/// The headline, of the definitions alone. Whatever answers events may get, each after those before it, from tables on
/// which no assertion is false: what they lead to is serializable; each committed transaction was told, from its BEGIN
/// to its COMMIT, what it answers alone on the tables of its snapshot, and so in the serial replay too; and where the
/// rows that were loaded fit their columns, those of all committed tables and of each open transaction's own view do.
pub fn answers_lead_to_a_serial_order()
    ensures serializable { InEachRun (λ loaded lines answers left. IsSerializable left.core) }
    ensures told { InEachRun (λ loaded lines answers left. WereToldAlone left.core lines answers) }
    ensures fit { InEachRun (λ loaded lines answers left. ShownFit loaded → AllFit left) }
{
    replies_are_those_alone();
    commits_have_an_order();
    replay_answers_again();
}
