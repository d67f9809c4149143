//! Definitions that are taken in as soon as they are read.

ghost use Rattle.std.specs.Prelude.{◌⊎◌, IfOk, IfErr};
ghost use Rattle.syntax.specs.SchemaGrammar.{IsSchema};
ghost use Rattle.alone.specs.Alone.{IsSound};
ghost use Rattle.replay.specs.Texts.{IsUnread};
ghost use Rattle.replay.specs.Takings.{IsAdmitted, IsReadTo, IsRefused};

use commit::admit_taken;
use definitions::{Definitions, Taking};
use delta::View;
use leaf_parser::Collection;
use parse::parse_schema_into;
use std::alloc::{AllocError, Global};
use syntax::Definition;
use value::Refusal;

/// What the definitions that were read so far define, or why the first that was refused was: those behind it are only
/// read, since a fault of their grammar comes before it.
#[derive(Drop)]
struct Intake {
    alloc: Global,
    made: Result<Taking, Refusal>,
}

impl Collection<Definition> for Intake {
    ghost use Rattle.std.specs.Prelude.{◌≡◌};
    ghost use Rattle.definitions.specs.Taken.{taken_of};

    ghost made_of = { λ intake definitions. taken_of definitions ≡ intake.made };

    /// Want of memory ends the reading, so it is never what is kept.
    #[tactic(auto, using(definitions::proofs::OneMore::one_more))]
    fn with(self, definition: Definition) -> Result<Intake, AllocError> {
        let Intake { alloc, made } = self;
        let made = match made {
            Ok(made) => match made.with(alloc, &definition) {
                Ok(made) => Ok(made),
                Err(Refusal::NoMemory) => return Err(AllocError),
                Err(refusal) => Err(refusal),
            },
            Err(refusal) => Err(refusal),
        };
        Ok(Intake { alloc, made })
    }
}

/// What the definitions of a text define, or the first fault of them. Each is taken in as soon as it is read, and its
/// tree is let go then.
///
/// # Errors
///
/// Why the text is none of its grammar, or [`Refusal::NoMemory`].
pub fn read_definitions(alloc: Global, defs: &[u8]) -> Result<Result<Definitions, Refusal>, Refusal>
    ensures read { IfOk result (IsReadTo defs.now) }
    ensures refused { IfErr result (IsUnread IsSchema defs.now) }
{
    let before = Intake {
        alloc,
        made: Ok(Taking::new(alloc)),
    };
    let intake = parse_schema_into(alloc, defs, before)?;
    match intake.made {
        Ok(made) => Ok(Ok(made.into_definitions())),
        Err(refusal) => Ok(Err(refusal)),
    }
}

/// The tables that the definitions of a text begin with. Every assertion is satisfied on them, and means what the
/// definitions write.
///
/// # Errors
///
/// Why the text is none of its grammar; or the first fault of the definitions, as `Taking::with` answers it; or
/// [`Refusal::FalseAtCreation`] with the first assertion that is false on the loaded rows, and the least root at which
/// it is. Or [`Refusal::NoMemory`].
#[tactic(auto, using(crate::proofs::Taking::text_admitted, crate::proofs::Taking::text_refused, crate::proofs::Taking::text_not_admitted))]
pub fn admit_text(alloc: Global, defs: &[u8]) -> Result<View, Refusal>
    ensures admitted { IfOk result (IsAdmitted defs.now) }
    ensures sound { IfOk result (λ view. IsSound view.declared view.state) }
    ensures refused { IfErr result (λ refusal. IsUnread IsSchema defs.now refusal ⊎ IsRefused defs.now refusal) }
{
    let taken = read_definitions(alloc, defs)??;
    let view = admit_taken(alloc, taken)?;
    Ok(view)
}
