//! What the signs of a picture mean.

use crate::colours::{ARROW, COMMITTED, MIDDLING, PALE, RED_ARROW, RED_TIE, REFUSED, UNDONE};
use crate::layouts::ROW;
use crate::svg::{Anchor, Area, Canvas, Point};

/// Boxes, by their colours.
const BOXES: [(&str, &str); 3] = [
    (
        COMMITTED,
        "a commit: its number, and its place in the serial order (sees 4: its snapshot holds the first 4 commits)",
    ),
    (
        REFUSED,
        "a refused COMMIT: 10 an assertion, 12 a row that another changed, 13 a triple; or a refused statement",
    ),
    (UNDONE, "rolled back, or open when the script ends"),
];

/// A box of a transaction that began READ ONLY.
const READER: &str = "read only: it writes nothing, and may stand as early as its snapshot lets it";

/// Arrows, by their colours and their heads.
const ARROWS: [(&str, &str, &str); 3] = [
    (
        ARROW,
        " marker-end=\"url(#head)\"",
        "read what the other changed, and neither saw the other: it stands before it in each serial order",
    ),
    (
        RED_ARROW,
        " marker-end=\"url(#redhead)\"",
        "the same, in a dangerous triple",
    ),
    (
        RED_TIE,
        "",
        "both changed one row, and the first to commit won",
    ),
];

/// Adds what the signs mean, from a height on, and gives where the picture ends. That of a box that is read only is
/// among them where there is one.
pub fn add_legend(y: u32, has_reader: bool, canvas: &mut Canvas) -> u32 {
    let mut y = y.saturating_add(10);
    for (colours, text) in &BOXES {
        add_box(y, &["rx=\"3\"", colours], text, canvas);
        y = y.saturating_add(ROW - 2);
    }
    if has_reader {
        add_box(y, &["rx=\"7\"", COMMITTED], READER, canvas);
        y = y.saturating_add(ROW - 2);
    }
    for (colours, head, text) in &ARROWS {
        canvas.svg.add("<path d=\"M8 ");
        canvas.svg.show(y.saturating_sub(4));
        canvas.svg.add_all(&["H42\" ", colours, head, "/>\n"]);
        add_meaning(y, text, canvas);
        y = y.saturating_add(ROW - 2);
    }
    y
}

/// Adds a box with its meaning, at a height.
fn add_box(y: u32, looks: &[&str], text: &str, canvas: &mut Canvas) {
    let area = Area {
        x: 8,
        y: y.saturating_sub(11),
        width: 34,
        height: 14,
    };
    canvas.add_area(area, looks);
    add_meaning(y, text, canvas);
}

/// Adds the meaning of a sign.
fn add_meaning(y: u32, text: &str, canvas: &mut Canvas) {
    canvas.text.add(text);
    let point = Point { x: 52, y };
    canvas.add_text(point, Anchor::Start, &[MIDDLING, PALE], usize::MAX);
}
