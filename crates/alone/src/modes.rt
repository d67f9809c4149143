//! The mode of each assertion.

ghost use Rattle.std.specs.Prelude.{◌≡◌, ◌<◌, true, length, slice_index_or, IfOk};
ghost use Rattle.alone.specs.Modes.{all_immediate, initial_modes, is_immediate, mode_of, mode_with, modes_with, named_immediate, opposite_modes};
ghost use Rattle.std.specs.List.{list_any};

use crate::names::is_named;
use assertion::Assertion;
use std::alloc::{AllocError, Global};
use std::marker::Model;
use syntax::Mode;
use value::Text;

/// The modes of a transaction: for each assertion, in the order of their creation, whether it is immediate.
#[derive(Debug, Drop)]
pub struct Modes {
    marks: Marks,
}

/// Which assertions are immediate.
#[derive(Debug, Drop)]
enum Marks {
    /// Of each assertion whether it is.
    Each(Vec<bool>),
    /// The same of all of so many: most have no assertion that is deferred, and then BEGIN takes no memory for the
    /// modes, and COMMIT none.
    Same { immediate: bool, count: usize },
}

impl Model for Modes {
    ghost use Rattle.alone.specs.Marks.{immediates_in};
    ghost use Rattle.alone.specs.Modes.{Immediates};

    ghost Value = { Immediates };

    ghost view = { λ modes. immediates_in modes.marks };
}

impl Modes {
    /// The modes in which a transaction begins. Where no assertion is initially deferred, it takes no memory.
    pub fn initial(alloc: Global, assertions: &[Assertion]) -> Result<Modes, AllocError>
        ensures { IfOk result (λ modes. modes ≡ initial_modes assertions.now) }
    {
        if !is_any_initially_deferred(assertions) {
            return Ok(Modes::all_immediate(assertions));
        }
        let mut immediate = Vec::with_capacity(alloc, assertions.len())?;
        for assertion in assertions {
            immediate.push(!assertion.attributes.initially_deferred)?;
        }
        Ok(Modes {
            marks: Marks::Each(immediate),
        })
    }

    /// All assertions are immediate, as COMMIT takes them. It takes no memory.
    pub fn all_immediate(assertions: &[Assertion]) -> Modes
        ensures { result ≡ all_immediate assertions.now }
    {
        Modes {
            marks: Marks::Same {
                immediate: true,
                count: assertions.len(),
            },
        }
    }

    /// Of each assertion the other mode, so that those are immediate that are deferred.
    pub fn opposite(&self, alloc: Global) -> Result<Modes, AllocError>
        ensures { IfOk result (λ modes. modes ≡ opposite_modes self.now) }
    {
        let marks = match &self.marks {
            Marks::Each(marks) => Marks::Each(opposite_marks(alloc, marks.as_slice())?),
            Marks::Same { immediate, count } => Marks::Same {
                immediate: !*immediate,
                count: *count,
            },
        };
        Ok(Modes { marks })
    }

    /// The assertions of these names are immediate and no others, as SET CONSTRAINTS .. IMMEDIATE checks them.
    pub fn named_immediate(
        alloc: Global,
        assertions: &[Assertion],
        names: &[Text],
    ) -> Result<Modes, AllocError>
        ensures { IfOk result (λ modes. modes ≡ named_immediate names.now assertions.now) }
    {
        let mut immediate = Vec::with_capacity(alloc, assertions.len())?;
        for assertion in assertions {
            immediate.push(is_named(names, &assertion.name))?;
        }
        Ok(Modes {
            marks: Marks::Each(immediate),
        })
    }

    /// These modes, of these assertions, with that of some set, by their names.
    pub fn set(
        &self,
        alloc: Global,
        assertions: &[Assertion],
        names: &[Text],
        mode: Mode,
    ) -> Result<Modes, AllocError>
        requires { length self.now ≡ length assertions.now }
        ensures { IfOk result (λ modes. modes ≡ modes_with names.now (is_immediate mode) assertions.now self.now) }
    {
        let mut immediate = Vec::with_capacity(alloc, assertions.len())?;
        for place in 0..assertions.len() {
            let before = self.is_immediate(place);
            immediate.push(mode_after(names, mode, &assertions[place], before))?;
        }
        Ok(Modes {
            marks: Marks::Each(immediate),
        })
    }

    /// How many assertions they are of. It takes no memory.
    pub fn len(&self) -> usize
        ensures { result ≡ length self.now }
    {
        match &self.marks {
            Marks::Each(marks) => marks.len(),
            Marks::Same { count, .. } => *count,
        }
    }

    /// Whether the assertion at this place is immediate. It takes no memory.
    pub fn is_immediate(&self, place: usize) -> bool
        requires { place < length self.now }
        ensures { result ≡ slice_index_or self.now place true }
    {
        match &self.marks {
            Marks::Each(marks) => marks[place],
            Marks::Same { immediate, .. } => *immediate,
        }
    }

    /// The mode of the assertion at this place. It takes no memory.
    pub fn of(&self, assertion: usize) -> Mode
        requires { assertion < length self.now }
        ensures { result ≡ mode_of (slice_index_or self.now assertion true) }
    {
        if self.is_immediate(assertion) {
            Mode::Immediate
        } else {
            Mode::Deferred
        }
    }
}

/// Whether one of the assertions is initially deferred.
fn is_any_initially_deferred(assertions: &[Assertion]) -> bool
    ensures { result ≡ list_any (λ a. a.attributes.initially_deferred) assertions.now }
{
    for assertion in assertions {
        if assertion.attributes.initially_deferred {
            return true;
        }
    }
    false
}

/// Of each mark the other.
fn opposite_marks(alloc: Global, marks: &[bool]) -> Result<Vec<bool>, AllocError>
    ensures { IfOk result (λ opposite. opposite.items ≡ opposite_modes marks.now) }
{
    let mut opposite = Vec::with_capacity(alloc, marks.len())?;
    for mark in marks {
        opposite.push(!*mark)?;
    }
    Ok(opposite)
}

/// Whether an assertion is immediate after the modes of some names are set.
fn mode_after(names: &[Text], mode: Mode, assertion: &Assertion, before: bool) -> bool
    ensures { result ≡ mode_with names.now (is_immediate mode) (assertion.now, before) }
{
    if is_named(names, &assertion.name) {
        mode == Mode::Immediate
    } else {
        before
    }
}
