//! What holds of the grammar alone.

ghost use Rattle.std.specs.Prelude.{◌≡◌, List};
ghost use Rattle.syntax.specs.declared.statements.Event.{Event};
ghost use Rattle.syntax.specs.declared.statements.ScriptLine.{ScriptLine};
ghost use Rattle.syntax.specs.declared.definitions.Definition.{Definition};
ghost use Rattle.syntax.specs.Language.{Lexemes};
ghost use Rattle.syntax.specs.StatementGrammar.{IsEvent};
ghost use Rattle.syntax.specs.SchemaGrammar.{IsSchema, IsScript};

/// No text is an event with two trees.
pub fn event_has_one_tree()
    ensures { (ts : Lexemes) (a b : Event) → IsEvent ts a → IsEvent ts b → a ≡ b }
{}

/// No text is a schema with two lists of definitions.
pub fn schema_has_one_tree()
    ensures { (ts : Lexemes) (a b : List Definition) → IsSchema ts a → IsSchema ts b → a ≡ b }
{}

/// No text is a script with two lists of lines.
pub fn script_has_one_tree()
    ensures { (ts : Lexemes) (a b : List ScriptLine) → IsScript ts a → IsScript ts b → a ≡ b }
{}
