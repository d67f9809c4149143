//! The lines of arrows, with their numbers.

use crate::arrows::{Arrow, Kind};
use crate::colours::{ARROW, BADGE, BOLD, ON_BADGE, RED_ARROW, RED_BADGE, RED_TIE, TINY};
use crate::layouts::Layout;
use crate::scenes::Scene;
use crate::svg::{Anchor, Canvas, Point};
use crate::words::add_meaning;
use printout::Printout;
use std::alloc::AllocError;

/// Where a number may stand on its curve, in sixteenths of the way, the best places first.
const STEPS: [u32; 14] = [4, 3, 5, 2, 6, 1, 7, 8, 9, 10, 11, 12, 13, 14];

/// Two numbers that are nearer to one another than this cover one another.
const NEAR: u32 = 16;

/// A curve by its two ends, at which it runs to the side.
#[derive(Clone, Copy)]
struct Curve {
    from: Point,
    to: Point,
}

impl Curve {
    /// Halfway between the ends, from the left.
    fn middle(self) -> u32 {
        (self.from.x / 2).saturating_add(self.to.x / 2)
    }

    /// The point after so many sixteenths of the way.
    fn point(self, step: u32) -> Point {
        let middle = self.middle();
        Point {
            x: on_curve(step, [self.from.x, middle, middle, self.to.x]),
            y: on_curve(step, [self.from.y, self.from.y, self.to.y, self.to.y]),
        }
    }
}

/// So many sixteenths of the way along a cubic curve of these four points, in one direction.
fn on_curve(step: u32, points: [u32; 4]) -> u32 {
    let [from, leave, arrive, to] = points;
    let first = between(step, from, leave);
    let second = between(step, leave, arrive);
    let third = between(step, arrive, to);
    between(
        step,
        between(step, first, second),
        between(step, second, third),
    )
}

/// So many sixteenths of the way from one number to another.
fn between(step: u32, from: u32, to: u32) -> u32 {
    let before = from.saturating_mul(16u32.saturating_sub(step));
    before.saturating_add(to.saturating_mul(step)) / 16
}

/// Adds the lines of arrows, and lists where the number of each stands.
pub fn add_arrows(
    scene: Scene<'_>,
    arrows: &[Arrow<'_>],
    badges: &mut Vec<Point>,
    canvas: &mut Canvas,
) -> Result<(), AllocError> {
    for arrow in arrows {
        if let Some(curve) = curve_of(scene, *arrow) {
            add_arrow(scene, *arrow, curve, canvas);
            let badge = badge_on(scene.layout, curve, badges.as_slice());
            badges.push(badge)?;
        }
    }
    Ok(())
}

/// The curve of an arrow: from the event that read to the end of the other transaction.
fn curve_of(scene: Scene<'_>, arrow: Arrow<'_>) -> Option<Curve> {
    let from = scene.transaction(arrow.from)?;
    let to = scene.transaction(arrow.to)?;
    let event = match arrow.read {
        Some(read) => read.event,
        None => from.ended,
    };
    let layout = scene.layout;
    let (left, right) = (layout.lane_x(from.session), layout.lane_x(to.session));
    let (start, end) = if left < right {
        (left.saturating_add(layout.lane_width), right)
    } else {
        (left, right.saturating_add(layout.lane_width))
    };
    Some(Curve {
        from: Point {
            x: start,
            y: layout.event_y(event),
        },
        to: Point {
            x: end,
            y: layout.event_y(to.ended),
        },
    })
}

/// Where the number of a curve covers least: on the curve or beside it.
fn badge_on(layout: &Layout, curve: Curve, badges: &[Point]) -> Point {
    let mut best = curve.point(4);
    let mut least = u32::MAX;
    for step in &STEPS {
        let Point { x, y } = curve.point(*step);
        for place in [y, y.saturating_add(NEAR), y.saturating_sub(NEAR)] {
            let point = Point { x, y: place };
            let cost = cost_of(layout, badges, point).saturating_add(u32::from(place != y));
            if cost < least {
                best = point;
                least = cost;
            }
        }
    }
    best
}

/// What a number at a point would cover: another number is worst, and a box is bad.
fn cost_of(layout: &Layout, badges: &[Point], point: Point) -> u32 {
    let on_badge = badges.iter().any(|it| is_near(*it, point));
    let on_box = !layout.is_between_lanes(point.x);
    match (on_badge, on_box) {
        (true, _) => 4,
        (false, true) => 2,
        (false, false) => 0,
    }
}

/// Whether the numbers at two points cover one another.
fn is_near(one: Point, other: Point) -> bool {
    one.x.abs_diff(other.x) < NEAR && one.y.abs_diff(other.y) < NEAR
}

/// Adds the line of an arrow, with what it is of for a pointer over it.
fn add_arrow(scene: Scene<'_>, arrow: Arrow<'_>, curve: Curve, canvas: &mut Canvas) {
    canvas.svg.add("<g>\n");
    add_meaning(scene.history, arrow, &mut canvas.text);
    canvas.add_title();
    let (line, head) = match arrow.kind {
        Kind::Conflict => (ARROW, " marker-end=\"url(#head)\""),
        Kind::Danger => (RED_ARROW, " marker-end=\"url(#redhead)\""),
        Kind::Overwrite => (RED_TIE, ""),
    };
    add_curve(curve, &mut canvas.svg);
    canvas.svg.add_all(&[line, head, "/>\n</g>\n"]);
}

/// Adds the beginning of a path along a curve.
fn add_curve(curve: Curve, svg: &mut Printout) {
    let middle = curve.middle();
    svg.add("<path d=\"M");
    add_pair(curve.from.x, curve.from.y, "C", svg);
    add_pair(middle, curve.from.y, " ", svg);
    add_pair(middle, curve.to.y, " ", svg);
    add_pair(curve.to.x, curve.to.y, "\" ", svg);
}

/// Adds two numbers, and what stands behind them.
fn add_pair(x: u32, y: u32, behind: &str, svg: &mut Printout) {
    svg.show(x);
    svg.add(" ");
    svg.show(y);
    svg.add(behind);
}

/// Adds the numbers of arrows, each on a badge at its point.
pub fn add_badges(arrows: &[Arrow<'_>], badges: &[Point], canvas: &mut Canvas) {
    for (place, (arrow, badge)) in arrows.iter().zip(badges.iter()).enumerate() {
        add_badge(*badge, arrow.kind, place.saturating_add(1), canvas);
    }
}

/// Adds the number of an arrow on its badge.
fn add_badge(badge: Point, kind: Kind, number: usize, canvas: &mut Canvas) {
    let colour = match kind {
        Kind::Conflict => BADGE,
        Kind::Danger | Kind::Overwrite => RED_BADGE,
    };
    canvas.svg.add("<circle cx=\"");
    canvas.svg.show(badge.x);
    canvas.svg.add("\" cy=\"");
    canvas.svg.show(badge.y);
    canvas.svg.add_all(&["\" r=\"8\" ", colour, "/>\n"]);
    canvas.text.show(number);
    let point = Point {
        x: badge.x,
        y: badge.y.saturating_add(4),
    };
    canvas.add_text(point, Anchor::Middle, &[TINY, BOLD, ON_BADGE], usize::MAX);
}
