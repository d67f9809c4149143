//! The boxes of transactions.

use crate::colours::{CODE, COMMITTED, INK, PALE, RED_INK, REFUSED, ROUND, SMALL, SQUARE, UNDONE};
use crate::scenes::Scene;
use crate::svg::{Anchor, Area, Canvas, Point};
use crate::words::{add_ending, add_last_event, add_place, add_summary};
use history::{End, Transaction};

/// Adds the box of a transaction, from its BEGIN to its last event.
pub fn add_box(scene: Scene<'_>, it: &Transaction, canvas: &mut Canvas) {
    canvas.svg.add("<g>\n");
    add_summary(scene.history, it, &mut canvas.text);
    canvas.add_title();
    let corners = if it.read_only { ROUND } else { SQUARE };
    canvas.add_area(area_of(scene, it), &[corners, colours_of(it.end)]);
    canvas.svg.add("</g>\n");
}

/// Adds the texts of a box.
pub fn add_texts(scene: Scene<'_>, it: &Transaction, canvas: &mut Canvas) {
    if scene.layout.is_written {
        add_events(scene, it, canvas);
    } else {
        add_ends(scene, it, canvas);
    }
}

/// Where the box of a transaction is.
fn area_of(scene: Scene<'_>, it: &Transaction) -> Area {
    let top = scene.layout.event_y(it.begun);
    let height = scene.layout.event_y(it.ended).saturating_sub(top);
    Area {
        x: scene.layout.lane_x(it.session),
        y: top.saturating_sub(9),
        width: scene.layout.lane_width,
        height: height.saturating_add(18),
    }
}

/// The colours of a box.
fn colours_of(end: End) -> &'static str {
    match end {
        End::Committed => COMMITTED,
        End::Refused => REFUSED,
        End::RolledBack | End::Open => UNDONE,
    }
}

/// Adds the two lines of a box whose events are not written out.
fn add_ends(scene: Scene<'_>, it: &Transaction, canvas: &mut Canvas) {
    canvas.text.add("sees ");
    canvas.text.show(it.snapshot);
    add_end(scene, it, it.begun, PALE, canvas);
    if it.ended == it.begun {
        return;
    }
    match it.end {
        End::Committed => add_place(scene.history, it.number, &mut canvas.text),
        _ => add_ending(scene.history, it, &mut canvas.text),
    }
    add_end(scene, it, it.ended, ink_of(it.end == End::Refused), canvas);
}

/// Adds the text as a line of a box whose events are not written out.
fn add_end(scene: Scene<'_>, it: &Transaction, event: usize, ink: &str, canvas: &mut Canvas) {
    let point = point_in(scene, it, event);
    canvas.add_text(point, Anchor::Start, &[SMALL, ink], usize::MAX);
}

/// Where the text of an event stands.
fn point_in(scene: Scene<'_>, it: &Transaction, event: usize) -> Point {
    Point {
        x: scene.layout.lane_x(it.session).saturating_add(6),
        y: scene.layout.event_y(event).saturating_add(4),
    }
}

/// The colour of a text.
fn ink_of(is_refused: bool) -> &'static str {
    if is_refused { RED_INK } else { INK }
}

/// Adds the events of a box.
fn add_events(scene: Scene<'_>, it: &Transaction, canvas: &mut Canvas) {
    for event in &scene.layout.rows {
        let Some(happening) = scene.history.events.as_slice().get(*event) else {
            continue;
        };
        if happening.session == it.session && it.begun <= *event && *event <= it.ended {
            add_line(scene, it, *event, ink_of(happening.is_refused()), canvas);
        }
    }
}

/// Adds an event of a box.
fn add_line(scene: Scene<'_>, it: &Transaction, event: usize, ink: &str, canvas: &mut Canvas) {
    if event == it.ended && it.end != End::Open {
        add_last_event(scene.history, it, &mut canvas.text);
    } else {
        scene.events.add_event(event, &mut canvas.text);
    }
    canvas.add_text(
        point_in(scene, it, event),
        Anchor::Start,
        &[SMALL, CODE, ink],
        scene.layout.most_columns(),
    );
}
