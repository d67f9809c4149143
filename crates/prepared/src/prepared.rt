//! Statements that are parsed once, and filled with values.

ghost use Rattle.std.specs.Prelude.{◌≡◌, ◌≢◌, None, Ok, Err, IfOk, IfErr};
ghost use Rattle.syntax.specs.declared.statements.Event.{Event};
ghost use Rattle.syntax.specs.StatementGrammar.{IsEvent};
ghost use Rattle.syntax.specs.Answer.{Fits};
ghost use Rattle.syntax.specs.Lexemes.{lexemes};
ghost use Rattle.parse.specs.Told.{Gave, most_open};
ghost use Rattle.prepared.specs.declared.faults.FillFault.TheVariants.{NoMemory};
ghost use Rattle.prepared.specs.Masks as masks;
ghost use Rattle.prepared.specs.Numbers as numbers;
ghost use Rattle.prepared.specs.Prepared as spec;
ghost use Rattle.value.specs.declared.refusals.Refusal.TheVariants as refusal;

use crate::constants::Constants;
use crate::faults::FillFault;
use crate::masks::mask;
use crate::numbers::{count_parameters, find_numbers, find_stray};
use crate::statements::fill_event;
use parse::parse_statement;
use sqlite_items::Items;
use std::alloc::Global;
use syntax::Event;
use token::read_tokens;
use value::{Refusal, Value};

/// An event whose constants may be parameters, for which values are given each time that it is run.
#[derive(Drop)]
pub struct Prepared {
    event: Event,
    /// For each number of the event, in reading order, which parameter it is, from 0, if it is one.
    numbers: Items<Option<usize>>,
}

/// The refusal, once what was read is let go.
fn drop_and_refuse<T: Drop>(at: usize, _read: T) -> Refusal
    ensures { result ≡ refusal.Syntax at }
{
    Refusal::Syntax { at }
}

/// The event of a text, in which each `?` outside of quoted texts and comments stands for a constant.
///
/// # Errors
///
/// `Syntax` names the offset of the first token that no event has after the tokens before it, or the text's length,
/// where each such `?` is a number. Where there is an event, it names the first `?` that stands directly behind a sign
/// which is no operator of a sum, or that is a part of a longer word or number. `TooDeep` names the first parenthesis
/// that opens while 64 are open; `NoMemory` comes where memory runs out.
#[tactic(auto, using(crate::proofs::Places::mask_length), unfolding(crate::specs::Prepared::numbers_of, crate::specs::Prepared::stray_of))]
pub fn prepare(alloc: Global, text: &[u8]) -> Result<Prepared, Refusal>
    // The event is one that the grammar relates to the text's mask, and its numbers are those of the mask.
    ensures found { IfOk result (spec.IsPrepared text.now) }
    // There it is given, unless memory runs out.
    ensures only { (event : Event) → IsEvent (lexemes (masks.mask text.now)) event
        → Fits most_open (lexemes (masks.mask text.now)) → spec.stray_of text.now ≡ None
        → Gave (spec.prepared_of text.now event) result }
    // A refusal names the first wrong token of the mask, the first parenthesis too many, or the first stray parameter.
    ensures refused { IfErr result (spec.RefusedText text.now) }
{
    let mask = mask(alloc, text)?;
    let tokens = read_tokens(alloc, &mask)?;
    let numbers = find_numbers(alloc, text, &tokens)?;
    let event = parse_statement(alloc, &mask)?;
    match find_stray(text, &tokens) {
        None => Ok(Prepared {
            event,
            numbers: Items::from_vec(numbers),
        }),
        Some(at) => Err(drop_and_refuse(at, event)),
    }
}

impl Prepared {
    /// How many values it takes.
    pub fn parameter_count(&self) -> usize
        ensures { result ≡ numbers.parameter_count self.now.numbers }
    {
        count_parameters(self.numbers.as_slice())
    }

    /// The event with these values in the places of its parameters, the first for the first `?`.
    ///
    /// # Errors
    ///
    /// In this order: `WrongCount` where there are not as many values as parameters; then the fault of the first
    /// parameter whose value may not stand in its place, which is `NullNotAllowed`, `NumberOutOfRange` or
    /// `TextNotPlain`. `NoMemory` where memory runs out before. Nothing has changed then.
    pub fn fill(&self, alloc: Global, values: &[Value]) -> Result<Event, FillFault>
        ensures made { IfOk result (λ event. spec.event_with_values self.now values.now ≡ Ok event) }
        ensures refused { IfErr result (λ fault.
            fault ≢ NoMemory → spec.event_with_values self.now values.now ≡ Err fault) }
    {
        let wanted = self.parameter_count();
        if values.len() != wanted {
            return Err(FillFault::WrongCount {
                wanted,
                given: values.len(),
            });
        }
        let mut constants = Constants::new(self.numbers.as_slice(), values);
        fill_event(alloc, &self.event, &mut constants)
    }
}
