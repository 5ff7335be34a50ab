// A source that is drawn into a point of the canvas, row by row.
#![tactic(auto)]

ghost use Rattle.std.specs.Prelude.{◌≡◌, ℕ, true, ◌+◌, ◌≤◌, ◌<◌, length, get_or};
ghost use Rattle.color.specs.Color.{mix_pix};
ghost use Rattle.canvas.specs.Rows.{map_row};
ghost use Rattle.canvas.specs.Canvas.{painted_on, boxed, box_on};
ghost use Rattle.sources.specs.Source.{is_source};
ghost use Rattle.genie.specs.Genie as Genie;
ghost use Rattle.genie.specs.Private as Private;

use canvas::Size;
use geom::{IRect, Pt, Rect};
use scaled::Stretch;
use sources::Sides;

// A flight's own numbers: from the rectangle `from` to the point `target`, at the time t, from 0 to 1,
// and at alpha, from 0 to 1.
#[derive(Clone, Copy)]
pub struct Flight {
    pub from: Rect,
    pub target: Pt,
    pub t: f32,
    pub alpha: f32,
}

// Where a row of the source lies: the canvas's row, its two ends, and its width, at least 1.
#[derive(Clone, Copy)]
struct Strip {
    y: i32,
    x0: f32,
    x1: f32,
    wide: f32,
}

// A row of the source where it lies, at `full` of 256 parts.
#[derive(Clone, Copy)]
struct Band<'a> {
    row: &'a [u32],
    strip: Strip,
    full: f32,
    ghost sized: { (1 ≤ length row.now) × (length row.now ≤ 4096) },
}

// The source src on its flight.
#[tactic(auto, unfolding(crate::specs::Genie::genied))]
pub fn blit_genie(
    px: &mut [u32],
    size: Size,
    clip: IRect,
    src: &[u32],
    sides: Sides,
    flight: Flight,
)
    ensures { px.new ≡ Genie.genied size.w size.h clip src.now sides flight px.old }
{
    if flight.t <= 0.0 {
        scaled::blit_scaled(px, size, clip, src, sides, at_start(flight));
    } else if sources::is_source(sides, src.len()) {
        genie_under(px, size, clip, src, sides, flight);
    }
}

fn at_start(flight: Flight) -> Stretch
    ensures { result ≡ Genie.at_start flight }
{
    let dest = flight.from;
    Stretch {
        dest,
        r: 24.0,
        alpha: flight.alpha,
    }
}

// Alpha in 256ths, as a float again; a scaled copy counts on in whole numbers.
#[tactic(auto, unfolding(crate::specs::Genie::full_of))]
fn full_of(alpha: f32) -> f32
    ensures { result ≡ Genie.full_of alpha }
{
    mathf::of_u32(mathf::to_u32(mathf::saturate(alpha) * 256.0))
}

// The source's rows, unless the clip has no pixel of the canvas: then none need be worked out. A painter's
// parameters go along as they are (docs/DECISIONS.md).
fn genie_under(px: &mut [u32], size: Size, clip: IRect, src: &[u32], sides: Sides, flight: Flight)
    requires { is_source sides (length src.now) ≡ true }
    ensures { px.new ≡ Genie.in_turn size.w size.h (Genie.genie_row size.w size.h clip src.now sides flight) sides.h px.old }
{
    let area = size.area_on(px.len(), clip, clip);
    if !area.is_empty() {
        genie_rows(px, size, clip, src, sides, flight);
    }
}

// The source's rows, from the last to the first; each is lent on. The line holds the colours of a
// part of a row, one for each column.
fn genie_rows(px: &mut [u32], size: Size, clip: IRect, src: &[u32], sides: Sides, flight: Flight)
    requires { is_source sides (length src.now) ≡ true }
    ensures { px.new ≡ Genie.in_turn size.w size.h (Genie.genie_row size.w size.h clip src.now sides flight) sides.h px.old }
{
    let full = full_of(flight.alpha);
    let mut line = [0u32; 2048];
    for sy in (0..sides.h).rev() {
        let strip = strip_of(flight, row_part(sy, sides.h));
        let from = sources::row_start(sides, sy);
        let row = &src[from..from + sides.w];
        genie_row(px, size, clip, Band { row, strip, full }, &mut line);
    }
}

// A row of the source. It is one row of the canvas, and is painted here: `canvas::paint_rows` takes
// what changes nothing but the row, and the line is written.
fn genie_row(px: &mut [u32], size: Size, clip: IRect, band: Band, line: &mut [u32])
    requires room { length line.old ≡ 2048 }
    ensures { px.new ≡ painted_on size.w size.h (boxed (box_on size.w size.h clip (Genie.strip_box band.entry.strip)) (λ x y p. Private.row_pix band.entry.row.now band.entry.strip band.entry.full x p)) px.old }
{
    let area = size.area_on(px.len(), clip, strip_box(band.strip));
    if !area.is_empty() {
        let from = area.y0 * size.w + area.x0;
        let to = area.y0 * size.w + area.x1;
        genie_spans(&mut px[from..to], area.x0, band, line);
    }
}

// The pixels from column x on, in spans that the line has room for. They are taken by index, since
// no clause says what a slice holds whose chunks were lent and written; and x goes beside the pixels,
// since a value of both would be made anew for each span.
fn genie_spans(dst: &mut [u32], x: usize, band: Band, line: &mut [u32])
    requires room { (x + length dst.old ≤ 4096) × (length line.old ≡ 2048) }
    ensures { dst.new ≡ map_row (λ i p. Private.row_pix band.entry.row.now band.entry.strip band.entry.full (x + i) p) dst.old }
{
    let n = dst.len();
    for at in (0..n).step_by(2048) {
        let end = canvas::strip_end(at, n, 2048);
        let colours = &mut line[..end - at];
        genie_span(&mut dst[at..end], x + at, band, colours);
    }
}

// One of these spans. Its colours are found first and mixed in then: both are fast, but not in one loop.
fn genie_span(dst: &mut [u32], x: usize, band: Band, line: &mut [u32])
    requires room { (x + length dst.old ≤ 4096) × (length line.old ≡ length dst.old) }
    ensures { dst.new ≡ map_row (λ i p. Private.row_pix band.entry.row.now band.entry.strip band.entry.full (x + i) p) dst.old }
{
    find_columns(line, x, band.row.len(), band.strip);
    find_colours(line, band.row);
    mix_span(dst, x, line, band);
}

// The source's columns under the line's, which are those from x on.
fn find_columns(line: &mut [u32], x: usize, sw: usize, strip: Strip)
    requires { (x + length line.old ≤ 4096) × (1 ≤ sw) × (sw ≤ 4096) }
    ensures { line.new ≡ map_row (λ i p. Genie.column sw strip (x + i)) line.old }
{
    canvas::map_pixels(line, |i, _| column(sw, strip, (x + i) as u16));
}

// The row's colours in the line's columns, in their places.
fn find_colours(line: &mut [u32], row: &[u32])
    requires { (i : ℕ) → i < length line.old → get_or line.old i 0 < length row.now }
    ensures { line.new ≡ map_row (λ i q. get_or row.now q 0) line.old }
{
    for q in line.iter_mut() {
        *q = row[*q as usize];
    }
}

// The colours of the line over the pixels from column x on.
fn mix_span(dst: &mut [u32], x: usize, line: &[u32], band: Band)
    requires { (x + length dst.old ≤ 4096) × (length line.now ≡ length dst.old) }
    ensures { dst.new ≡ map_row (λ i p. mix_pix p (get_or line.now i 0) (Genie.coverage band.entry.strip band.entry.full (x + i))) dst.old }
{
    let strip = band.strip;
    let full = band.full;
    canvas::map_pixels(
        dst,
        |i, p| genie_pix(p, line[i], strip, full, (x + i) as u16),
    );
}

#[tactic(auto, using(crate::proofs::Strips::clamp_cast), unfolding(crate::specs::Genie::column))]
fn column(sw: usize, strip: Strip, x: u16) -> u32
    requires { (1 ≤ sw) × (sw ≤ 4096) }
    ensures { result ≡ Genie.column sw strip x }
{
    let u = mathf::to_u12((edge::centre(x) - strip.x0) / strip.wide * mathf::of_u32(sw as u32));
    u.min((sw - 1) as u32)
}

// The colour s over the pixel p in column x.
#[tactic(auto, using(crate::proofs::Strips::mix_cast), unfolding(crate::specs::Genie::coverage))]
fn genie_pix(p: u32, s: u32, strip: Strip, full: f32, x: u16) -> u32
    ensures { result ≡ mix_pix p s (Genie.coverage strip full x) }
{
    let left = mathf::saturate(x as f32 + 1.0 - strip.x0);
    let right = mathf::saturate(strip.x1 - x as f32);
    color::mix_pix(p, s, mathf::to_u12(mathf::min(left, right) * full))
}

// Where the row at v lies.
#[tactic(auto, using(geom::proofs::Sides::cast_side), unfolding(crate::specs::Genie::strip_of))]
fn strip_of(flight: Flight, v: f32) -> Strip
    ensures { result ≡ Genie.strip_of flight v }
{
    let from = flight.from;
    let target = flight.target;
    let down = eased(flight.t, v);
    let across = ease_curve(down);
    let y = mathf::to_i32(mathf::lerp(from.y + v * from.h, target.y, down));
    let width = mathf::lerp(from.w, 24.0, across);
    let centre = mathf::lerp(from.cx(), target.x, across);
    Strip {
        y,
        x0: centre - width * 0.5,
        x1: centre + width * 0.5,
        wide: mathf::max(width, 1.0),
    }
}

#[tactic(auto, using(std::proofs::lemmas::Int::ints, std::proofs::lemmas::Int::clamps), unfolding(crate::specs::Genie::strip_box, geom::specs::Geom::min_z))]
fn strip_box(strip: Strip) -> IRect
    ensures { result ≡ Genie.strip_box strip }
{
    let x0 = mathf::to_i32(mathf::floor(strip.x0));
    let x1 = mathf::to_i32(mathf::ceil(strip.x1));
    IRect::new(x0, strip.y, x1, strip.y.saturating_add(1))
}

// The place of row sy among sh: 0 for the first, 1 for the last.
#[tactic(auto, unfolding(crate::specs::Genie::row_part))]
fn row_part(sy: usize, sh: usize) -> f32
    requires { (sy < sh) × (sh ≤ 4096) }
    ensures { result ≡ Genie.row_part sy sh }
{
    mathf::of_u32(sy as u32) / mathf::of_u32((sh - 1).max(1) as u32)
}

#[tactic(auto, unfolding(crate::specs::Genie::eased))]
fn eased(t: f32, v: f32) -> f32
    ensures { result ≡ Genie.eased t v }
{
    let lag: f32 = 0.55;
    let gone = mathf::saturate((t - (1.0 - v) * lag) / (1.0 - lag));
    gone * gone * (3.0 - 2.0 * gone)
}

#[tactic(auto, unfolding(crate::specs::Genie::ease_curve))]
fn ease_curve(e: f32) -> f32
    ensures { result ≡ Genie.ease_curve e }
{
    let u = mathf::saturate(e);
    u * u * (1.5 - 0.5 * u)
}
