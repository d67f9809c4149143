//! The rows that a transaction has touched, and its net change.

ghost use Rattle.std.specs.Prelude.{◌≡◌, ◌++◌, List, None, Some, Option, length, unwrap_or, IfOk, OnOk, OnErr, if◌then◌else◌};
ghost use Rattle.table.specs.Rows.{Layout};
ghost use Rattle.assertion.specs.Meaning.{State};
ghost use Rattle.siread.specs.declared.keys.Place.{Place as AnyPlace};
ghost use Rattle.siread.specs.Keys.{place_of};
ghost use Rattle.alone.specs.States.{IsState, net_change};
ghost use Rattle.changes.specs.Nets.{AreChangesBetween, AreNoted, HasPlace, HasPlaces, change_noted, noted_after, noted_at, rows_after};

use crate::real::is_same_there;
use siread::Place;
use std::alloc::{AllocError, Global};
use std::collections::BTreeMap;
use std::marker::Model;
use table::{Change, Row};

/// The rows that a transaction has touched: of each what stood at its place before the first change, and what stands
/// there after the last. It is kept as the statements are run, so that COMMIT has the net change without a look at any
/// table.
#[derive(Drop)]
pub struct TouchedRows {
    /// A place has no rows where room was made for it, and then memory ran out.
    rows: BTreeMap<Place, Option<RowsThere>>,
}

/// What stands at a place in two states. Either may have no row there.
#[derive(Drop)]
pub struct RowsThere {
    pub old: Option<Row>,
    pub new: Option<Row>,
}

impl Model for TouchedRows {
    ghost use Rattle.changes.specs.Nets.{Noted};

    ghost Value = { Noted };

    ghost view = { λ touched. touched.rows.entries };
}

impl TouchedRows {
    /// None. It takes no memory.
    pub fn new(alloc: Global) -> TouchedRows
        ensures { (place : AnyPlace) → noted_at result place ≡ None }
    {
        TouchedRows {
            rows: BTreeMap::new(alloc),
        }
    }

    /// Notes the changes that lead from the second of the two states to another. After an error what is noted is as it
    /// was.
    pub fn note(&mut self, changes: Vec<Change>) -> Result<(), AllocError>
        ensures noted { OnOk result ((layouts : List Layout) (start before after : State)
            → AreNoted layouts start before self.old → AreChangesBetween layouts before after changes.items
            → AreNoted layouts start after self.new) }
        ensures same { OnErr result ((place : AnyPlace) → noted_at self.new place ≡ noted_at self.old place) }
    {
        if changes.len() == 1 {
            return self.note_only(changes);
        }
        self.make_room(changes.as_slice())?;
        self.put(changes);
        Ok(())
    }

    /// The same of one change alone, for which no room has to be made before it is noted.
    fn note_only(&mut self, changes: Vec<Change>) -> Result<(), AllocError>
        requires { length changes.items ≡ 1 }
        ensures noted { OnOk result ((layouts : List Layout) (start before after : State)
            → AreNoted layouts start before self.old → AreChangesBetween layouts before after changes.items
            → AreNoted layouts start after self.new) }
        ensures same { OnErr result ((place : AnyPlace) → noted_at self.new place ≡ noted_at self.old place) }
    {
        let mut changes = changes;
        match changes.pop() {
            Some(change) => self.note_one(change),
            None => Ok(()),
        }
    }

    /// Notes one change, by one look for its place. Where there is none yet and no memory for it, nothing is noted.
    fn note_one(&mut self, change: Change) -> Result<(), AllocError>
        ensures noted { OnOk result ((place : AnyPlace)
            → noted_at self.new place ≡ noted_after change place (noted_at self.old place)) }
        ensures same { OnErr result ((place : AnyPlace) → noted_at self.new place ≡ noted_at self.old place) }
    {
        let Change {
            table,
            key,
            old,
            new,
        } = change;
        let place = Place { table, key };
        let rows = self.rows.entry(place)?.or_insert(None);
        put_rows(rows, old, new);
        Ok(())
    }

    /// Makes room for changes. What is noted stays as it is, and after an error too.
    fn make_room(&mut self, changes: &[Change]) -> Result<(), AllocError>
        ensures same { (place : AnyPlace) → noted_at self.new place ≡ noted_at self.old place }
        ensures room { OnOk result (HasPlaces self.new changes.now) }
    {
        for change in changes {
            self.make_place(change)?;
        }
        Ok(())
    }

    /// Makes room for one change.
    fn make_place(&mut self, change: &Change) -> Result<(), AllocError>
        ensures same { (place : AnyPlace) → noted_at self.new place ≡ noted_at self.old place }
        ensures kept { (place : AnyPlace) → HasPlace self.old place → HasPlace self.new place }
        ensures room { OnOk result (HasPlace self.new (place_of change.now)) }
    {
        let place = Place {
            table: change.table,
            key: change.key.copy()?,
        };
        if !self.rows.contains_key(&place) {
            self.rows.insert(place, None)?;
        }
        Ok(())
    }

    /// Notes the changes that lead from the second of the two states to another. It takes no memory: room has been
    /// made for them.
    fn put(&mut self, changes: Vec<Change>)
        requires room { HasPlaces self.old changes.items }
        ensures { (layouts : List Layout) (start before after : State)
            → AreNoted layouts start before self.old → AreChangesBetween layouts before after changes.items
            → AreNoted layouts start after self.new }
    {
        for change in changes {
            self.put_one(change);
        }
    }

    /// Notes one change.
    fn put_one(&mut self, change: Change)
        requires room { HasPlace self.old (place_of change) }
        ensures kept { (place : AnyPlace) → HasPlace self.old place → HasPlace self.new place }
        ensures noted { (place : AnyPlace)
            → noted_at self.new place ≡ noted_after change place (noted_at self.old place) }
    {
        let Change {
            table,
            key,
            old,
            new,
        } = change;
        let place = Place { table, key };
        let Some(rows) = self.rows.get_mut(&place) else {
            return;
        };
        put_rows(rows, old, new);
    }

    /// The net change between two states that differ as is noted: the rows in which they differ, by table and key,
    /// each with what stands there in the one and in the other.
    pub fn net_change(&self, alloc: Global) -> Result<Vec<Change>, AllocError>
        ensures { IfOk result (λ made. (layouts : List Layout) (start now : State)
            → IsState layouts start → IsState layouts now → AreNoted layouts start now self.now
            → made.items ≡ net_change layouts start now) }
    {
        // A commit keeps them, so there is no room to spare.
        let mut made = Vec::with_capacity(alloc, self.rows.len())?;
        for (place, rows) in self.rows.iter() {
            push_real(&mut made, place, rows)?;
        }
        Ok(made)
    }
}

/// What was there first stays, and what is to stand there now is the new one.
fn put_rows(rows: &mut Option<RowsThere>, old: Option<Row>, new: Option<Row>)
    ensures { rows.new ≡ Some (rows_after old new rows.old) }
{
    match rows {
        Some(rows) => rows.new = new,
        None => *rows = Some(RowsThere { old, new }),
    }
}

/// Puts the change at a place behind the others, if its rows are not the same.
fn push_real(
    changes: &mut Vec<Change>,
    place: &Place,
    rows: &Option<RowsThere>,
) -> Result<(), AllocError>
    ensures { OnOk result (changes.new.items ≡ changes.old.items ++ change_noted (place.now, rows.now)) }
{
    if let Some(rows) = rows {
        if !is_same_there(rows.old.as_ref(), rows.new.as_ref()) {
            changes.push(Change {
                table: place.table,
                key: place.key.copy()?,
                old: copy_row(&rows.old)?,
                new: copy_row(&rows.new)?,
            })?;
        }
    }
    Ok(())
}

fn copy_row(row: &Option<Row>) -> Result<Option<Row>, AllocError>
    ensures { IfOk result (λ copy. copy ≡ row.now) }
{
    match row {
        None => Ok(None),
        Some(row) => Ok(Some(row.copy()?)),
    }
}
