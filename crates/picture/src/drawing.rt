//! The picture of a script.

ghost use Rattle.std.specs.Prelude.{◌≤◌};

use crate::arrows::push_arrows;
use crate::boxes::{add_box, add_texts};
use crate::colours::{GROUND, STYLE};
use crate::curves::{add_arrows, add_badges};
use crate::lanes::add_lanes;
use crate::layouts::Layout;
use crate::legends::add_legend;
use crate::lists::{add_arrow_list, add_heading};
use crate::scenes::Scene;
use crate::svg::Canvas;
use history::{History, Source, read_history};
use printout::Printout;
use replay::ProgramFault;
use std::alloc::{AllocError, Global};
use std::io::Write;

/// Runs a script of any sessions on definitions, with at most so many commits, and writes a picture of what happened,
/// as SVG 1.1.
///
/// # Errors
///
/// The first fault before the run, as `replay::replay_into` answers it, and the writer is then as it was;
/// [`ProgramFault::Stopped`] where memory ends the run; [`ProgramFault::Output`] at the first fault of the writer.
pub fn picture_into<W: Write>(
    alloc: Global,
    defs: &[u8],
    script: &[u8],
    max_commits: u32,
    out: &mut W,
) -> Result<(), ProgramFault> {
    let mut history = History::new(alloc);
    match read_history(alloc, defs, script, max_commits, &mut history) {
        Ok(()) => write_picture(alloc, &history, script, out),
        Err(fault) => Err(fault),
    }
}

/// Writes the picture of a history.
fn write_picture<W: Write>(
    alloc: Global,
    history: &History,
    script: &[u8],
    out: &mut W,
) -> Result<(), ProgramFault> {
    let mut picture = Printout::new(alloc);
    let drawn = draw(alloc, history, script, &mut picture);
    match (drawn, picture.text()) {
        (Ok(()), Ok(text)) => out.write_all(text.as_bytes())?,
        _ => return Err(ProgramFault::Stopped),
    }
    Ok(out.flush()?)
}

/// Draws the picture of a history.
fn draw(
    alloc: Global,
    history: &History,
    script: &[u8],
    picture: &mut Printout,
) -> Result<(), AllocError> {
    let mut events = Source::new(alloc, script);
    let mut layout = Layout::new(alloc);
    let mut canvas = Canvas::new(alloc);
    events.read(alloc)?;
    layout.take_in(history, &events, &mut canvas.text)?;
    let scene = Scene {
        history,
        events: &events,
        layout: &layout,
    };
    let height = add_body(alloc, scene, &mut canvas)?;
    add_head(layout.width(), height, picture);
    picture.add(canvas.elements()?);
    picture.add("</g>\n</svg>\n");
    Ok(())
}

/// Adds the element itself, its style, and the ground.
fn add_head(width: u32, height: u32, out: &mut Printout) {
    out.add("<?xml version=\"1.0\" encoding=\"UTF-8\"?>\n");
    out.add("<svg xmlns=\"http://www.w3.org/2000/svg\" version=\"1.1\" ");
    add_size(width, height, out);
    out.add(" viewBox=\"0 0 ");
    out.show(width);
    out.add(" ");
    out.show(height);
    out.add("\">\n<title>Transactions and their conflicts</title>\n");
    out.add_all(&[STYLE, "<rect "]);
    add_size(width, height, out);
    out.add_all(&[" ", GROUND, "/>\n"]);
    out.add("<g font-family=\"sans-serif\" font-size=\"13\">\n");
}

/// Adds the attributes of a width and a height.
fn add_size(width: u32, height: u32, out: &mut Printout) {
    out.add("width=\"");
    out.show(width);
    out.add("\" height=\"");
    out.show(height);
    out.add("\"");
}

/// Adds the heading, the lanes with their boxes, the arrows, their list and the legend, and gives where they end.
fn add_body(alloc: Global, scene: Scene<'_>, canvas: &mut Canvas) -> Result<u32, AllocError> {
    add_heading(scene, canvas);
    add_lanes(scene, canvas);
    for place in &scene.layout.boxes {
        if let Some(it) = scene.transaction(*place) {
            add_box(scene, it, canvas);
        }
    }
    let mut arrows = Vec::new(alloc);
    let mut badges = Vec::new(alloc);
    let left = push_arrows(scene.history, scene.layout, &mut arrows)?;
    add_arrows(scene, arrows.as_slice(), &mut badges, canvas)?;
    // A pointer over a number or a text finds the arrow or the box below it.
    canvas.svg.add("<g pointer-events=\"none\">\n");
    add_badges(arrows.as_slice(), badges.as_slice(), canvas);
    for place in &scene.layout.boxes {
        if let Some(it) = scene.transaction(*place) {
            add_texts(scene, it, canvas);
        }
    }
    canvas.svg.add("</g>\n");
    let y = add_arrow_list(scene, arrows.as_slice(), left, canvas);
    Ok(add_legend(y, has_reader(scene), canvas))
}

/// Whether a transaction that is drawn began READ ONLY.
fn has_reader(scene: Scene<'_>) -> bool {
    scene
        .layout
        .boxes
        .iter()
        .any(|place| is_read_only(scene, *place))
}

/// Whether a transaction began READ ONLY.
fn is_read_only(scene: Scene<'_>, place: usize) -> bool {
    match scene.transaction(place) {
        Some(it) => it.read_only,
        None => false,
    }
}
