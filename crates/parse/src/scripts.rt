//! Scripts.

ghost use Rattle.syntax.specs.SchemaReaders as reader;
ghost use Rattle.leaf_parser.specs.Reads.{Reads};

use crate::events::parse_event;
use leaf_parser::{Cursor, Part, RepeatedPart, Stop, expect_after, parse_many, parse_name};
use sqlite_items::Items;
use std::alloc::Global;
use syntax::ScriptLine;
use token::Kind;

/// `name ":" event ";"`, where so many parentheses may be opened.
#[derive(Drop)]
struct ScriptLinePart {
    alloc: Global,
    depth: usize,
}

impl Part for ScriptLinePart {
    ghost use Rattle.syntax.specs.SchemaReaders as reader;

    type Tree = ScriptLine;

    ghost ready = { λ _. Unit {0} };

    ghost reader = { λ s. reader.script_line s.depth };

    #[tactic(auto, unfolding(syntax::specs::SchemaReaders::script_line))]
    fn parse(&self, cursor: &mut Cursor<'_>) -> Result<ScriptLine, Stop> {
        let session = parse_name(self.alloc, cursor)?;
        cursor.expect(Kind::Colon)?;
        let event = parse_event(self.alloc, cursor, self.depth)?;
        expect_after(cursor, Kind::Semicolon, ScriptLine { session, event })
    }
}

impl RepeatedPart for ScriptLinePart {
    ghost use Rattle.syntax.specs.SchemaReaders as reader;

    ghost begins = { reader.starts_script_line };

    fn begins(&self, kind: Kind) -> bool {
        matches!(kind, Kind::Name)
    }
}

/// `{ name ":" event ";" }`
#[tactic(auto, unfolding(syntax::specs::SchemaReaders::script))]
pub fn parse_script(
    alloc: Global,
    cursor: &mut Cursor<'_>,
    depth: usize,
) -> Result<Items<ScriptLine>, Stop>
    ensures { Reads (reader.script depth cursor.old) result cursor.new }
{
    parse_many(&ScriptLinePart { alloc, depth }, cursor, Items::new(alloc))
}
