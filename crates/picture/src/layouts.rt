//! What is drawn, and where.

use history::{History, Source, Transaction};
use printout::Printout;
use std::alloc::{AllocError, Global};
use unicode_width::UnicodeWidthStr;

/// At most so many sessions are drawn.
const MOST_LANES: usize = 12;
/// At most so many transactions are drawn.
const MOST_BOXES: usize = 60;
/// Events are written out where there are so many lanes at most ..
const MOST_WRITTEN_LANES: usize = 4;
/// .. and so many rows at most.
const MOST_WRITTEN_ROWS: usize = 60;

/// The height of a row.
pub const ROW: u32 = 22;
/// Where the first row stands.
pub const TOP: u32 = 96;
/// Where the first lane begins.
const LEFT: u32 = 52;
/// What is free at the right of the last lane.
const RIGHT: u32 = 16;
/// The least width of the whole, for the legend.
const LEAST_WIDTH: u32 = 760;
/// The width of a column of a statement.
const LETTER: u32 = 7;
/// The least width of a lane whose events are written out.
const LEAST_LANE: u32 = 170;
/// The width of a lane whose events are not written out.
const NARROW_LANE: u32 = 92;

/// What is drawn of a history: lanes of sessions, boxes of transactions, rows of events.
#[derive(Drop)]
pub struct Layout {
    /// The sessions with a lane.
    pub lanes: Vec<usize>,
    /// The transactions with a box, by their places in the history.
    pub boxes: Vec<usize>,
    /// The events with a row, in their order.
    pub rows: Vec<usize>,
    /// Whether each event of a box is written out.
    pub is_written: bool,
    pub lane_width: u32,
}

impl Layout {
    /// Nothing is drawn.
    pub fn new(alloc: Global) -> Layout {
        Layout {
            lanes: Vec::new(alloc),
            boxes: Vec::new(alloc),
            rows: Vec::new(alloc),
            is_written: false,
            lane_width: NARROW_LANE,
        }
    }

    /// Takes in what is drawn of a history, where nothing was: the first sessions, their first transactions, and of
    /// these all events, or, where they are many, the first and the last. The events are told by a text that is empty
    /// before and afterwards.
    pub fn take_in(
        &mut self,
        history: &History,
        events: &Source<'_>,
        text: &mut Printout,
    ) -> Result<(), AllocError> {
        push_lanes(history, &mut self.lanes)?;
        push_boxes(history, self.lanes.as_slice(), &mut self.boxes)?;
        push_rows(history, self.boxes.as_slice(), true, &mut self.rows)?;
        self.is_written = self.lanes.len() <= MOST_WRITTEN_LANES
            && self.rows.len() <= MOST_WRITTEN_ROWS;
        if self.is_written {
            let longest = longest_text(events, self.rows.as_slice(), text)?;
            self.lane_width = written_width(longest, self.lanes.len());
            return Ok(());
        }
        self.rows.clear();
        push_rows(history, self.boxes.as_slice(), false, &mut self.rows)
    }

    /// How many columns of a statement fit into a lane.
    pub fn most_columns(&self) -> usize {
        (self.lane_width / LETTER) as usize
    }

    /// From where a lane begins to where the next one does.
    fn lane_step(&self) -> u32 {
        let gap = if self.is_written { 84 } else { 34 };
        self.lane_width.saturating_add(gap)
    }

    /// Where the lane of a session begins.
    pub fn lane_x(&self, session: usize) -> u32 {
        let lane = self.lanes.iter().position(|it| *it == session).unwrap_or(0);
        LEFT.saturating_add(as_u32(lane).saturating_mul(self.lane_step()))
    }

    /// Whether a number at this place covers no lane.
    pub fn is_between_lanes(&self, x: u32) -> bool {
        let step = self.lane_step();
        match x.saturating_sub(LEFT).checked_rem(step) {
            Some(inside) => {
                inside >= self.lane_width.saturating_add(5) && inside <= step.saturating_sub(5)
            }
            None => false,
        }
    }

    /// The height at which an event stands: that of its own row, or of the next one that there is.
    pub fn event_y(&self, event: usize) -> u32 {
        let row = self
            .rows
            .iter()
            .position(|it| *it >= event)
            .unwrap_or(self.rows.len());
        TOP.saturating_add(as_u32(row).saturating_mul(ROW))
    }

    /// Where what stands below the rows begins.
    pub fn bottom(&self) -> u32 {
        TOP.saturating_add(as_u32(self.rows.len()).saturating_mul(ROW))
    }

    /// The width of the whole.
    pub fn width(&self) -> u32 {
        let before = as_u32(self.lanes.len()).saturating_sub(1);
        let lanes = before.saturating_mul(self.lane_step());
        let right = LEFT.saturating_add(lanes).saturating_add(self.lane_width);
        right.saturating_add(RIGHT).max(LEAST_WIDTH)
    }
}

/// The width of lanes in which texts of so many columns at most are written out.
fn written_width(longest: usize, lanes: usize) -> u32 {
    let most = match lanes {
        0..=2 => 370,
        3 => 340,
        _ => 300,
    };
    let width = as_u32(longest).saturating_mul(LETTER).saturating_add(14);
    width.max(LEAST_LANE).min(most)
}

/// How many columns the longest text of these events takes.
fn longest_text(
    events: &Source<'_>,
    rows: &[usize],
    text: &mut Printout,
) -> Result<usize, AllocError> {
    let mut longest = 0usize;
    for event in rows {
        events.add_event(*event, text);
        longest = longest.max(text.text()?.width());
        text.clear();
    }
    Ok(longest)
}

/// A small number as a coordinate.
fn as_u32(number: usize) -> u32 {
    u32::try_from(number).unwrap_or(u32::MAX)
}

/// Lists the first sessions that have a transaction.
fn push_lanes(history: &History, lanes: &mut Vec<usize>) -> Result<(), AllocError> {
    for it in &history.transactions {
        if lanes.len() < MOST_LANES && !lanes.contains(&it.session) {
            lanes.push(it.session)?;
        }
    }
    Ok(())
}

/// Lists the first transactions of these sessions.
fn push_boxes(
    history: &History,
    lanes: &[usize],
    boxes: &mut Vec<usize>,
) -> Result<(), AllocError> {
    for (place, it) in history.transactions.iter().enumerate() {
        if boxes.len() < MOST_BOXES && lanes.contains(&it.session) {
            boxes.push(place)?;
        }
    }
    Ok(())
}

/// Lists the events of these transactions: all of them, or the first and the last.
fn push_rows(
    history: &History,
    boxes: &[usize],
    are_all: bool,
    rows: &mut Vec<usize>,
) -> Result<(), AllocError> {
    for (event, happening) in history.events.iter().enumerate() {
        let Some(place) = happening.transaction else {
            continue;
        };
        if !boxes.contains(&place) {
            continue;
        }
        let Some(it) = history.transactions.as_slice().get(place) else {
            continue;
        };
        if are_all || is_end(it, event) {
            rows.push(event)?;
        }
    }
    Ok(())
}

/// Whether a transaction begins or ends at an event.
fn is_end(it: &Transaction, event: usize) -> bool {
    it.begun == event || it.ended == event
}
