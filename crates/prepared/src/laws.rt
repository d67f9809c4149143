//! What holds of the grammar alone.

ghost use Rattle.std.specs.Prelude.{◌≡◌};
ghost use Rattle.syntax.specs.declared.statements.Event.{Event};
ghost use Rattle.syntax.specs.StatementGrammar.{IsEvent};
ghost use Rattle.syntax.specs.Language.{Lexemes};
ghost use Rattle.prepared.specs.Numerals.{event_numerals, numerals};
ghost use Rattle.prepared.specs.Written.{FilledIsWritten};

/// The numbers of an event are those among the tokens of its text, in reading order, but for their signs. So a value
/// for the n-th of the one stands in the place of the n-th of the other.
pub fn event_has_the_numbers_of_its_text()
    ensures { (ts : Lexemes) (event : Event) → IsEvent ts event → event_numerals event ≡ numerals ts }
{}

/// Values that are numbers and texts of the language, for an INSERT also NULL, filled in, give the event of each text
/// that has them written in the places of its parameters, however they are spelled there. (A NULL that an UPDATE gives
/// to a column is left out: what it becomes is said by the definition of `fill` alone.)
pub fn filled_event_is_written()
    ensures { FilledIsWritten }
{}
