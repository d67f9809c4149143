//! What the definitions of this crate entail. Each law is the contract of a function that does nothing.

ghost use Rattle.definitions.specs.Indexes.{IndexesChangeNothing};
ghost use Rattle.definitions.specs.Sentences.{CheckSays, ForeignKeySays, UniqueSays};

/// What definitions define, they define without their indexes: so each answer on it is the same.
#[tactic(auto, using(crate::proofs::WithoutIndexes::same_without_indexes))]
pub fn indexes_change_nothing()
    ensures { IndexesChangeNothing }
{}

/// UNIQUE is satisfied exactly where no two rows have one value in its column (ISO/IEC 9075:1992, 11.7).
pub fn unique_says_what_is_written()
    ensures { UniqueSays }
{}

/// CHECK is satisfied exactly where its condition is false of no row (ISO/IEC 9075:1992, 11.9).
pub fn check_says_what_is_written()
    ensures { CheckSays }
{}

/// FOREIGN KEY is satisfied exactly where each row has a NULL among its columns or refers to a row
/// (ISO/IEC 9075:1992, 11.8).
pub fn foreign_key_says_what_is_written()
    ensures { ForeignKeySays }
{}
