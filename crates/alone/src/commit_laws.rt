//! What the definitions of this crate entail. Each law is the contract of a function that does nothing.

ghost use Rattle.std.specs.Prelude.{◌≡◌, ◌<◌, ◌≤◌, ℕ, true, false, List, [], ◌∷◌, IsPermutation};
ghost use Rattle.alone.specs.declared.records.Record.{Record};
ghost use Rattle.alone.specs.Commits.{IsLog, IsNext, IsAccepted};
ghost use Rattle.alone.specs.Order.{serial_order, IsSerial, StandBySnapshot, IsKept, IsFixed, IsPutIn};
ghost use Rattle.alone.specs.Answer.{AreJudged, IsAnswer, IsNumbered, Number};
ghost use Rattle.alone.specs.Safe.{IsSafe};
ghost use Rattle.alone.specs.Epoch.{InEachEpoch, AreRecorded, AnswersAgain, EndsNewest, AreSound, InTurn};

/// The order law: in the serial order of a log each commit stands once, after all that its snapshot holds, after the
/// earlier writers of its rows, and before all to which it conflicts. One that is read only stands right behind the
/// number of its snapshot. One commit more leaves the others as they stood, and is put in by its rank.
pub fn commits_have_an_order()
    ensures once { (log : List Record) → IsLog log → IsPermutation log (serial_order log) }
    ensures serial { (log : List Record) → IsLog log → IsSerial log (serial_order log) }
    ensures readers { (log : List Record) → IsLog log → StandBySnapshot log (serial_order log) }
    ensures kept { (commit : Record) (earlier : List Record) → IsLog (commit ∷ earlier) → IsKept commit earlier }
    ensures fixed { (commit : Record) (earlier : List Record) → IsLog (commit ∷ earlier) → IsFixed commit earlier }
    ensures put_in { (commit : Record) (earlier : List Record) → IsLog (commit ∷ earlier) → IsPutIn commit earlier }
{}

/// Two numbers decide: no dangerous triple has the next commit in it exactly where neither test passes. Where the first
/// does, it is the pivot of one, and the two numbers are the greatest reader and the least writer. Where it can be no
/// pivot and the second test passes, it is the reader, and the least pivot has the least writer in its own number.
pub fn two_numbers_decide()
    ensures { (log : List Record) (commit : Record) → IsNext commit log → AreJudged log commit }
{}

/// A commit that is answered with its number is accepted.
pub fn numbered_commits_are_accepted()
    ensures { (log : List Record) (commit : Record) → IsNumbered log commit → IsAccepted commit log }
{}

/// Who reads a safe snapshot, read only, is accepted as the next commit, and a snapshot that is safe stays so with each
/// commit whose own snapshot is no older, or that is read only.
pub fn safe_snapshots_have_no_danger()
    ensures accepted { (log : List Record) (commit : Record) → IsLog log → commit.read_only ≡ true → commit.changes ≡ []
        → IsSafe log commit.snapshot → IsAnswer log commit (Number commit.number) }
    ensures stays { (log : List Record) (commit : Record) (snapshot : ℕ) → IsLog (commit ∷ log)
        → snapshot < commit.number → (commit.read_only ≡ false → snapshot ≤ commit.snapshot)
        → IsSafe log snapshot → IsSafe (commit ∷ log) snapshot }
{}

/// The replay theorem: the committed transactions, run alone in the serial order, answer what each was answered on
/// its snapshot, and end in the newest tables; and the tables after each number of commits make no assertion false.
/// What each was answered has an accepted COMMIT in it, and the net change that is recorded. The newest tables are
/// those of the start with the net changes put in from the oldest on.
pub fn replay_answers_again()
    ensures again { InEachEpoch AnswersAgain }
    ensures newest { InEachEpoch EndsNewest }
    ensures sound { InEachEpoch AreSound }
    ensures recorded { InEachEpoch AreRecorded }
    ensures in_turn { InEachEpoch InTurn }
{}
