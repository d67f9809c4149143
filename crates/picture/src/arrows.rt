//! Which arrows are drawn.

use crate::layouts::Layout;
use alone::Answer;
use history::{End, History, Read, Transaction, are_apart, conflict_between};
use std::alloc::AllocError;
use value::{Party, Refusal};

/// At most so many arrows are drawn.
const MOST_ARROWS: usize = 40;

/// What an arrow is of.
#[derive(Clone, Copy, Debug, PartialEq, Eq)]
pub enum Kind {
    /// The one read what the other changed.
    Conflict,
    /// That, in a dangerous triple.
    Danger,
    /// Both changed one row, and the second was refused.
    Overwrite,
}

/// An arrow from one transaction to another, by their places in the history.
#[derive(Clone, Copy)]
pub struct Arrow<'a> {
    pub kind: Kind,
    pub from: usize,
    pub to: usize,
    /// What was read, of a conflict.
    pub read: Option<&'a Read>,
}

/// Lists the arrows between transactions that are drawn, those of refusals first, and answers how many more there are.
pub fn push_arrows<'a>(
    history: &'a History,
    layout: &Layout,
    arrows: &mut Vec<Arrow<'a>>,
) -> Result<usize, AllocError> {
    for place in &layout.boxes {
        push_refused(history, layout, *place, arrows)?;
    }
    for from in &layout.boxes {
        for to in &layout.boxes {
            if let Some(arrow) = conflict_of(history, *from, *to) {
                push_new(arrow, arrows)?;
            }
        }
    }
    let left = arrows.len().saturating_sub(MOST_ARROWS);
    arrows.truncate(MOST_ARROWS);
    Ok(left)
}

/// Puts an arrow behind the others, unless one is there from the one transaction to the other.
fn push_new<'a>(arrow: Arrow<'a>, arrows: &mut Vec<Arrow<'a>>) -> Result<(), AllocError> {
    let is_there = arrows
        .iter()
        .any(|it| it.from == arrow.from && it.to == arrow.to);
    if !is_there {
        arrows.push(arrow)?;
    }
    Ok(())
}

/// The conflict of one commit to another, if there is one.
fn conflict_of<'a>(history: &'a History, from: usize, to: usize) -> Option<Arrow<'a>> {
    let reader = history.transactions.as_slice().get(from)?;
    let writer = history.transactions.as_slice().get(to)?;
    if reader.end != End::Committed || writer.end != End::Committed {
        return None;
    }
    arrow_between(Kind::Conflict, from, reader, to, writer)
}

/// The arrow of a conflict of one transaction to another, if there is one.
fn arrow_between<'a>(
    kind: Kind,
    from: usize,
    reader: &'a Transaction,
    to: usize,
    writer: &'a Transaction,
) -> Option<Arrow<'a>> {
    if !are_apart(reader, writer) {
        return None;
    }
    let conflict = conflict_between(reader, writer)?;
    Some(Arrow {
        kind,
        from,
        to,
        read: Some(conflict.read),
    })
}

/// Puts the arrows of a refused COMMIT behind the others.
fn push_refused<'a>(
    history: &'a History,
    layout: &Layout,
    place: usize,
    arrows: &mut Vec<Arrow<'a>>,
) -> Result<(), AllocError> {
    let Some(this) = history.transactions.as_slice().get(place) else {
        return Ok(());
    };
    if this.end != End::Refused {
        return Ok(());
    }
    let Some(happening) = history.events.as_slice().get(this.ended) else {
        return Ok(());
    };
    match &happening.answer {
        Answer::Refused(
            Refusal::Dangerous {
                reader,
                pivot,
                writer,
            },
        ) => {
            let reader = party_of(history, place, *reader);
            let pivot = party_of(history, place, *pivot);
            let writer = party_of(history, place, *writer);
            push_danger(history, layout, reader, pivot, arrows)?;
            push_danger(history, layout, pivot, writer, arrows)
        }
        Answer::Refused(Refusal::WriteConflict { by, .. }) => {
            let other = party_of(history, place, Party::Number(*by));
            push_overwrite(layout, place, other, arrows)
        }
        _ => Ok(()),
    }
}

/// The transaction that a refusal names, by its place.
fn party_of(history: &History, this: usize, party: Party) -> Option<usize> {
    match party {
        Party::This => Some(this),
        Party::Number(number) => history
            .transactions
            .iter()
            .position(|it| it.end == End::Committed && it.number == number),
    }
}

/// Puts a conflict of a dangerous triple behind the others, where both have a box.
fn push_danger<'a>(
    history: &'a History,
    layout: &Layout,
    from: Option<usize>,
    to: Option<usize>,
    arrows: &mut Vec<Arrow<'a>>,
) -> Result<(), AllocError> {
    let (Some(from), Some(to)) = (from, to) else {
        return Ok(());
    };
    if !layout.boxes.contains(&from) || !layout.boxes.contains(&to) {
        return Ok(());
    }
    let transactions = history.transactions.as_slice();
    let (Some(reader), Some(writer)) = (transactions.get(from), transactions.get(to)) else {
        return Ok(());
    };
    match arrow_between(Kind::Danger, from, reader, to, writer) {
        Some(arrow) => push_new(arrow, arrows),
        None => Ok(()),
    }
}

/// Puts the tie of two that changed one row behind the others, where both have a box.
fn push_overwrite(
    layout: &Layout,
    from: usize,
    to: Option<usize>,
    arrows: &mut Vec<Arrow<'_>>,
) -> Result<(), AllocError> {
    let Some(to) = to else {
        return Ok(());
    };
    if layout.boxes.contains(&to) {
        arrows.push(Arrow {
            kind: Kind::Overwrite,
            from,
            to,
            read: None,
        })?;
    }
    Ok(())
}
