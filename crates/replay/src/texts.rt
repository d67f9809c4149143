//! The two texts.

ghost use Rattle.std.specs.Prelude.{◌≡◌, true, IfOk, IfErr};
ghost use Rattle.replay.specs.Texts.{IsFirstFault, is_before_the_run};
ghost use Rattle.replay.specs.Takings.{AreTaken};

use crate::faults::ProgramFault;
use crate::intakes::read_definitions;
use definitions::Definitions;
use parse::parse_script;
use sqlite_items::Items;
use std::alloc::Global;
use syntax::ScriptLine;

/// At most so many sessions in one script.
pub const MOST_SESSIONS: usize = 256;

/// What the definitions define, and the events of the script. Both texts are read to their ends before a fault of a
/// definition is answered.
///
/// # Errors
///
/// [`ProgramFault::Defs`] where the definitions are no text of their grammar; [`ProgramFault::Script`] where they
/// are, and the script is none of its own; `Defs` again where both are read, and a definition is refused. Each may be
/// want of memory.
#[tactic(auto, using(crate::proofs::Taking::taken, crate::proofs::Taking::not_taken, crate::proofs::Taking::no_script))]
pub fn read_texts(
    alloc: Global,
    defs: &[u8],
    script: &[u8],
) -> Result<(Definitions, Items<ScriptLine>), ProgramFault>
    ensures read { IfOk result (λ texts. AreTaken defs.now script.now texts.0 texts.1) }
    ensures refused { IfErr result (IsFirstFault defs.now script.now) }
    ensures before { IfErr result (λ fault. is_before_the_run fault ≡ true) }
{
    let made = match read_definitions(alloc, defs) {
        Ok(made) => made,
        Err(refusal) => return Err(ProgramFault::Defs(refusal)),
    };
    let lines = match parse_script(alloc, script) {
        Ok(lines) => lines,
        Err(refusal) => return Err(ProgramFault::Script(refusal)),
    };
    match made {
        Ok(definitions) => Ok((definitions, lines)),
        Err(refusal) => Err(ProgramFault::Defs(refusal)),
    }
}
