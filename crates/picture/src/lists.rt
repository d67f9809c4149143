//! What stands above the lanes and below them: what is drawn, and what each arrow is of.

use crate::arrows::{Arrow, Kind};
use crate::colours::{INK, PALE, RED_INK};
use crate::layouts::{Layout, ROW};
use crate::scenes::Scene;
use crate::svg::{Anchor, Canvas, Point};
use crate::words::add_meaning;
use history::{End, History};
use printout::Printout;

/// Adds the text as a line that begins at the left, cut where the picture ends.
fn add_line(layout: &Layout, y: u32, colours: &str, canvas: &mut Canvas) {
    let most = (layout.width() / 7) as usize;
    canvas.add_text(Point { x: 8, y }, Anchor::Start, &[colours], most);
}

/// Adds how many transactions there are, and how many of them are not drawn.
pub fn add_heading(scene: Scene<'_>, canvas: &mut Canvas) {
    let Scene {
        history,
        layout,
        ..
    } = scene;
    canvas.text.add("transactions: ");
    add_counts(history, &[], &mut canvas.text);
    add_line(layout, 22, INK, canvas);
    if history.transactions.len() == layout.boxes.len() {
        return;
    }
    canvas.text.add("not drawn: ");
    add_counts(history, layout.boxes.as_slice(), &mut canvas.text);
    add_line(layout, 42, PALE, canvas);
}

/// Adds how many transactions there are but for some, and how these ended.
fn add_counts(history: &History, but: &[usize], out: &mut Printout) {
    let (mut all, mut committed, mut refused) = (0usize, 0usize, 0usize);
    for (place, it) in history.transactions.iter().enumerate() {
        if but.contains(&place) {
            continue;
        }
        all = all.saturating_add(1);
        match it.end {
            End::Committed => committed = committed.saturating_add(1),
            End::Refused => refused = refused.saturating_add(1),
            End::RolledBack | End::Open => {}
        }
    }
    let others = all.saturating_sub(committed).saturating_sub(refused);
    out.show(all);
    out.add(" (");
    out.show(committed);
    out.add(" committed, ");
    out.show(refused);
    out.add(" refused, ");
    out.show(others);
    out.add(" rolled back or open)");
}

/// Adds what each arrow is of, and how many conflicts are left out, and gives where the next line stands.
pub fn add_arrow_list(
    scene: Scene<'_>,
    arrows: &[Arrow<'_>],
    left: usize,
    canvas: &mut Canvas,
) -> u32 {
    let mut y = scene.layout.bottom().saturating_add(24);
    for (place, arrow) in arrows.iter().enumerate() {
        canvas.text.show(place.saturating_add(1));
        canvas.text.add(": ");
        add_meaning(scene.history, *arrow, &mut canvas.text);
        let colours = match arrow.kind {
            Kind::Conflict => INK,
            Kind::Danger | Kind::Overwrite => RED_INK,
        };
        add_line(scene.layout, y, colours, canvas);
        y = y.saturating_add(ROW - 2);
    }
    if left > 0 {
        canvas.text.add("and ");
        canvas.text.show(left);
        canvas.text.add(" more conflicts between these");
        add_line(scene.layout, y, PALE, canvas);
        y = y.saturating_add(ROW - 2);
    }
    y
}
