//! What holds of the grammar alone.

ghost use Rattle.std.specs.Prelude.{◌≡◌};
ghost use Rattle.syntax.specs.declared.trees.Condition.{Condition};
ghost use Rattle.syntax.specs.Language.{Lexemes};
ghost use Rattle.syntax.specs.Grammar.{IsCondition};

/// No text is a condition with two trees.
pub fn condition_has_one_tree()
    ensures { (ts : Lexemes) (c d : Condition) → IsCondition ts c → IsCondition ts d → c ≡ d }
{}
