//! What holds of the written meaning and the resolved one.

ghost use Rattle.meaning.specs.Keys.{CheckReads, DeleteReads, HasOneLink, SelectReads, UpdateReads};
ghost use Rattle.meaning.specs.Keys.{VerdictReads, WhereReads};
ghost use Rattle.meaning.specs.Laws.{GivesValues, KeepsRows};
ghost use Rattle.meaning.specs.Laws.{DeletesRows, SelectsWritten, UpdatesColumns, UpdatesRows};
ghost use Rattle.meaning.specs.Laws.{HasALink, HasFormInClass, HasWrittenLeast, HasWrittenRoots};
ghost use Rattle.meaning.specs.Laws.{HasWrittenTruth, KeepsForm};
ghost use Rattle.meaning.specs.Laws.{StaysWritten, TakesExactly, TakesWritten};

/// A condition over the rows of one table is true, false or unknown of a row as it is written, and an expression has
/// its written value there.
pub fn rows_are_as_written()
    ensures conditions { KeepsRows }
    ensures expressions { GivesValues }
{}

/// A DELETE and an UPDATE that are taken are of the rows for which their WHERE is true as it is written, and the UPDATE
/// gives the columns that are written the written values. A SELECT gives the rows that are written: its list of each
/// row for which its WHERE is true, or of all of them together where a set function stands in it.
pub fn statements_keep_written_rows()
    ensures delete { DeletesRows }
    ensures select { SelectsWritten }
    ensures update { UpdatesRows }
    ensures columns { UpdatesColumns }
{}

/// A condition has a form exactly where it is by rows, by groups or single. In one by rows, a query has a link wherever
/// one of the parts that AND joins in its WHERE joins the two rows, and the others are over both.
pub fn class_has_forms()
    ensures forms { HasFormInClass }
    ensures links { HasALink }
{}

/// An assertion that has a form is false at the roots that its text names, and true, false or unknown as its text is;
/// its least bad root is that of its text. It keeps its form where more tables come after those that it was given one
/// over.
pub fn form_means_what_is_written()
    ensures roots { HasWrittenRoots }
    ensures truth { HasWrittenTruth }
    ensures least { HasWrittenLeast }
    ensures kept { KeepsForm }
{}

/// An assertion that is taken is the one that is written, and stays that where more tables are created. And exactly
/// those are taken whose attributes don't contradict each other, whose names are known, and whose condition is of the
/// class, typed and bounded.
pub fn assertion_means_what_is_written()
    ensures written { TakesWritten }
    ensures later { StaysWritten }
    ensures exact { TakesExactly }
{}

/// A WHERE over the rows of one table reads under the key of its text, a check of an assertion at a root under the keys
/// of the assertion's text, and VERDICT the tables of its text. Of the parts of a WHERE that join the two rows, one
/// alone is its link, by which the keys of its query are said.
pub fn keys_are_as_written()
    ensures conditions { WhereReads }
    ensures links { HasOneLink }
    ensures checks { CheckReads }
    ensures verdicts { VerdictReads }
{}

/// A DELETE, a SELECT and an UPDATE that are taken read under the key of their table and their WHERE as they are
/// written, and else under the keys of their checks alone. A read-only transaction takes the SELECT alone.
pub fn statements_read_written_keys()
    ensures delete { DeleteReads }
    ensures select { SelectReads }
    ensures update { UpdateReads }
{}
