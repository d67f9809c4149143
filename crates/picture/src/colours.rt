//! How it looks: letters and colours as attributes, and colours for a dark ground as a style.

/// The letters of a number on a badge.
pub const TINY: &str = "font-size=\"10\"";
/// The letters of texts in a box.
pub const SMALL: &str = "font-size=\"11\"";
/// The letters of the legend.
pub const MIDDLING: &str = "font-size=\"12\"";
/// Bold letters.
pub const BOLD: &str = "font-weight=\"bold\"";
/// The letters of a statement.
pub const CODE: &str = "font-family=\"monospace\"";

/// The corners of a box.
pub const SQUARE: &str = "rx=\"4\"";
/// The corners of the box of a transaction that began READ ONLY.
pub const ROUND: &str = "rx=\"13\"";

/// The ground.
pub const GROUND: &str = "class=\"ground\" fill=\"#ffffff\"";
/// Texts.
pub const INK: &str = "class=\"ink\" fill=\"#1b1f24\"";
/// Texts of less weight.
pub const PALE: &str = "class=\"pale\" fill=\"#5c6670\"";
/// The texts of what was refused.
pub const RED_INK: &str = "class=\"alarm\" fill=\"#b3181f\"";
/// The line of a lane.
pub const LANE: &str = "class=\"lane\" stroke=\"#c9d1d9\"";
/// The box of a commit.
pub const COMMITTED: &str = "class=\"done\" fill=\"#e4eefa\" stroke=\"#4a76a8\"";
/// The box of a transaction whose COMMIT was refused.
pub const REFUSED: &str = "class=\"refused\" fill=\"#fbe4e4\" stroke=\"#b3181f\"";
/// The box of one that was rolled back, or that is open in the end.
pub const UNDONE: &str =
    "class=\"undone\" fill=\"#f3f4f6\" stroke=\"#7d8590\" stroke-dasharray=\"4 3\"";
/// The line of a conflict.
pub const ARROW: &str = "class=\"arrow\" fill=\"none\" stroke=\"#2f6db5\" stroke-width=\"1.5\"";
/// The line of a conflict in a dangerous triple.
pub const RED_ARROW: &str =
    "class=\"redline\" fill=\"none\" stroke=\"#b3181f\" stroke-width=\"2.5\"";
/// The line between two that changed one row.
pub const RED_TIE: &str =
    "class=\"redline\" fill=\"none\" stroke=\"#b3181f\" stroke-width=\"2\" stroke-dasharray=\"2 4\"";
/// The badge of an arrow.
pub const BADGE: &str = "class=\"badge\" fill=\"#2f6db5\"";
/// The badge of a red arrow.
pub const RED_BADGE: &str = "class=\"alarm\" fill=\"#b3181f\"";
/// The number on a badge.
pub const ON_BADGE: &str = "class=\"ground\" fill=\"#ffffff\"";

/// What is used on a dark ground, and the heads of arrows.
pub const STYLE: &str = "<style type=\"text/css\">
@media (prefers-color-scheme: dark) {
.ground { fill: #0f1419; }
.ink { fill: #e6edf3; }
.pale { fill: #9aa5b1; }
.alarm { fill: #ff8080; }
.lane { stroke: #3a434d; }
.done { fill: #1b2c40; stroke: #7fa8d6; }
.refused { fill: #43191c; stroke: #ff8080; }
.undone { fill: #1c2128; stroke: #8b949e; }
.arrow { stroke: #79b0f2; }
.redline { stroke: #ff8080; }
.badge { fill: #79b0f2; }
}
</style>
<defs>
<marker id=\"head\" viewBox=\"0 0 10 10\" refX=\"9\" refY=\"5\" markerWidth=\"8\" markerHeight=\"8\"
markerUnits=\"userSpaceOnUse\" orient=\"auto\">
<path d=\"M0 0L10 5L0 10z\" class=\"badge\" fill=\"#2f6db5\"/>
</marker>
<marker id=\"redhead\" viewBox=\"0 0 10 10\" refX=\"9\" refY=\"5\" markerWidth=\"11\" markerHeight=\"11\"
markerUnits=\"userSpaceOnUse\" orient=\"auto\">
<path d=\"M0 0L10 5L0 10z\" class=\"alarm\" fill=\"#b3181f\"/>
</marker>
</defs>
";
