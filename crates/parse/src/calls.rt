//! The trees of texts.

ghost use Rattle.std.specs.Prelude.{List, [], length, IfOk, IfErr};
ghost use Rattle.syntax.specs.declared.statements.Event.{Event};
ghost use Rattle.syntax.specs.declared.statements.ScriptLine.{ScriptLine};
ghost use Rattle.syntax.specs.declared.definitions.Definition.{Definition};
ghost use Rattle.syntax.specs.StatementGrammar.{IsEvent};
ghost use Rattle.syntax.specs.SchemaGrammar.{IsSchema, IsScript};
ghost use Rattle.syntax.specs.Answer.{Fits};
ghost use Rattle.syntax.specs.Lexemes.{lexemes};
ghost use Rattle.parse.specs.Told.{most_open, IsRefusalOf, Gave, GaveIn};

use crate::wholes::{event_of, schema_of, script_of};
use leaf_parser::Collection;
use sqlite_items::Items;
use std::alloc::Global;
use syntax::{Definition, Event, ScriptLine};
use token::read_tokens;
use value::Refusal;

const MOST_OPEN: usize = 64;

/// The definitions of a text: `{ def ";" }`. The empty text has none.
///
/// `Syntax` names the offset of the first token that no schema has after the tokens before it, or
/// the text's length; `TooDeep` that of the first parenthesis that opens while 64 are open;
/// `NoMemory` comes where memory runs out.
pub fn parse_schema(alloc: Global, text: &[u8]) -> Result<Items<Definition>, Refusal>
    // A list is given only where the grammar relates it to the text, and no parenthesis opens while 64 are open.
    ensures found { IfOk result (λ d. IsSchema (lexemes text.now) d × Fits most_open (lexemes text.now)) }
    // There it is given, unless memory runs out.
    ensures only { (d : List Definition) → IsSchema (lexemes text.now) d → Fits most_open (lexemes text.now)
        → Gave d result }
    // A refusal names the first wrong token, or the first parenthesis too many.
    ensures refused { IfErr result (IsRefusalOf IsSchema most_open (lexemes text.now) (length text.now)) }
{
    parse_schema_into(alloc, text, Items::new(alloc))
}

/// What comes of the definitions of a text. Each is put in as soon as it is read, so that no list of their trees is
/// needed; but where the text is refused, it is refused as a whole, and what was made so far is let go.
///
/// The refusals are those of [`parse_schema`]; `NoMemory` comes too where there is none to put a definition in.
pub fn parse_schema_into<C: Collection<Definition>>(
    alloc: Global,
    text: &[u8],
    into: C,
) -> Result<C, Refusal>
    requires { C.made_of into [] }
    // It is given only of definitions that the grammar relates to the text, in their order, where no parenthesis opens
    // while 64 are open.
    ensures found { IfOk result (λ made. (d : List Definition) × C.made_of made d × IsSchema (lexemes text.now) d
        × Fits most_open (lexemes text.now)) }
    // There it is given, and of these, unless memory runs out.
    ensures only { (d : List Definition) → IsSchema (lexemes text.now) d → Fits most_open (lexemes text.now)
        → GaveIn C.made_of d result }
    // A refusal names the first wrong token, or the first parenthesis too many.
    ensures refused { IfErr result (IsRefusalOf IsSchema most_open (lexemes text.now) (length text.now)) }
{
    let tokens = read_tokens(alloc, text)?;
    schema_of(alloc, text, &tokens, MOST_OPEN, into)
}

/// The event of a text, with no semicolon behind it.
///
/// The refusals are those of [`parse_schema`], with events for schemas.
pub fn parse_statement(alloc: Global, text: &[u8]) -> Result<Event, Refusal>
    // A tree is given only where the grammar relates it to the text, and no parenthesis opens while 64 are open.
    ensures found { IfOk result (λ e. IsEvent (lexemes text.now) e × Fits most_open (lexemes text.now)) }
    // There it is given, unless memory runs out.
    ensures only { (e : Event) → IsEvent (lexemes text.now) e → Fits most_open (lexemes text.now) → Gave e result }
    // A refusal names the first wrong token, or the first parenthesis too many.
    ensures refused { IfErr result (IsRefusalOf IsEvent most_open (lexemes text.now) (length text.now)) }
{
    let tokens = read_tokens(alloc, text)?;
    event_of(alloc, text, &tokens, MOST_OPEN)
}

/// The lines of a script: `{ name ":" event ";" }`. The empty text has none.
///
/// The refusals are those of [`parse_schema`], with scripts for schemas.
pub fn parse_script(alloc: Global, text: &[u8]) -> Result<Items<ScriptLine>, Refusal>
    // A list is given only where the grammar relates it to the text, and no parenthesis opens while 64 are open.
    ensures found { IfOk result (λ s. IsScript (lexemes text.now) s × Fits most_open (lexemes text.now)) }
    // There it is given, unless memory runs out.
    ensures only { (s : List ScriptLine) → IsScript (lexemes text.now) s → Fits most_open (lexemes text.now) → Gave s result }
    // A refusal names the first wrong token, or the first parenthesis too many.
    ensures refused { IfErr result (IsRefusalOf IsScript most_open (lexemes text.now) (length text.now)) }
{
    let tokens = read_tokens(alloc, text)?;
    script_of(alloc, text, &tokens, MOST_OPEN)
}
