//! The lanes of sessions, and the numbers of events beside them.

use crate::colours::{BOLD, INK, LANE, PALE, SMALL};
use crate::layouts::TOP;
use crate::scenes::Scene;
use crate::svg::{Anchor, Canvas, Point};

/// Adds each lane, and the number of each event that has a row.
pub fn add_lanes(scene: Scene<'_>, canvas: &mut Canvas) {
    for session in &scene.layout.lanes {
        add_lane(scene, *session, canvas);
    }
    canvas.text.add("event");
    add_beside(TOP - 26, canvas);
    for event in &scene.layout.rows {
        canvas.text.show(event.saturating_add(1));
        add_beside(scene.layout.event_y(*event).saturating_add(4), canvas);
    }
}

/// Adds the lane of a session: its name, and a line from top to bottom.
fn add_lane(scene: Scene<'_>, session: usize, canvas: &mut Canvas) {
    let width = scene.layout.lane_width;
    let x = scene.layout.lane_x(session).saturating_add(width / 2);
    canvas.svg.add("<path d=\"M");
    canvas.svg.show(x);
    canvas.svg.add(" ");
    canvas.svg.show(TOP - 20);
    canvas.svg.add("V");
    canvas.svg.show(scene.layout.bottom());
    canvas.svg.add_all(&["\" ", LANE, "/>\n"]);
    let Some(name) = scene.history.session(session) else {
        return;
    };
    canvas.text.show(name);
    let point = Point { x, y: TOP - 26 };
    canvas.add_text(point, Anchor::Middle, &[BOLD, INK], (width / 8) as usize);
}

/// Adds the text beside the lanes, at a height.
fn add_beside(y: u32, canvas: &mut Canvas) {
    canvas.add_text(Point { x: 8, y }, Anchor::Start, &[SMALL, PALE], usize::MAX);
}
