// The edge of a rounded rectangle: the distance of a pixel from it, and how much of the pixel it covers.
#![tactic(auto)]

ghost use Rattle.std.specs.Prelude.{◌≡◌, pos};
ghost use Rattle.edge.specs.Edge as Edge;
ghost use Rattle.edge.specs.Corner as Corner;
ghost use Rattle.edge.specs.Ends as Ends;

use geom::{MOST_SIDE, Rect};

// Which pixels of a row lie surely away from the edge. The row lies past the straight part of the left
// and the right side. A pixel that lies past that of the top or the bottom too is away where the square
// of its distance from the corner's centre is up to `low` or from `high` on; any other where `flat`.
// A NaN in `low` or `high` stands for no such square: no square is up to one, or from one on, so that one
// comparison a pixel says it, where an Option would be opened at each.
#[derive(Clone, Copy)]
pub struct Away {
    pub low: f32,
    pub high: f32,
    pub flat: bool,
}

// The columns from `from` up to `to` of a row, between the parts at its two ends.
#[derive(Clone, Copy)]
pub struct Middle {
    pub from: usize,
    pub to: usize,
}

// The signed distance of (px, py) from the edge of the rounded rectangle about (cx, cy): below zero
// inside.
pub fn rrect_sd(px: f32, py: f32, cx: f32, cy: f32, hw: f32, hh: f32, r: f32) -> f32
    ensures { result ≡ Edge.rrect_sd px py cx cy hw hh r }
{
    corner_sd(axis(px, cx, hw, r), axis(py, cy, hh, r), r)
}

// How far p lies beyond the straight part of the side, along one axis.
pub fn axis(p: f32, c: f32, half: f32, r: f32) -> f32
    ensures { result ≡ Edge.axis p c half r }
{
    mathf::fabs(p - c) - (half - r)
}

// How far column x lies beyond the straight part of the top and the bottom of rect, whose corners have the radius r.
// Each axis is one call of `axis`, by its definition's name: what the two share is in `axis` already.
pub fn col_axis(rect: Rect, r: f32, x: u16) -> f32
    ensures { result ≡ Corner.col_axis rect r x }
{
    axis(centre(x), rect.cx(), rect.w * 0.5, r)
}

// How far row y lies beyond the straight part of the left and the right side.
pub fn row_axis(rect: Rect, r: f32, y: u16) -> f32
    ensures { result ≡ Corner.row_axis rect r y }
{
    axis(centre(y), rect.cy(), rect.h * 0.5, r)
}

// Past both straight parts the corner's circle is what is near; else the nearer side.
pub fn corner_sd(qx: f32, qy: f32, r: f32) -> f32
    ensures { result ≡ Edge.corner_sd qx qy r }
{
    if qx > 0.0 && qy > 0.0 {
        mathf::sqrt(qx * qx + qy * qy) - r
    } else if qx > qy {
        qx - r
    } else {
        qy - r
    }
}

// How much of 255 is covered of a pixel whose centre lies at the distance d from the edge.
pub fn cov8(d: f32) -> u32
    ensures { result ≡ Edge.cov8 d }
{
    mathf::to_u32(mathf::saturate(0.5 - d) * 255.0 + 0.5)
}

// The centre of column or row x. A canvas has at most 4096 of either, so 16 bits hold them, and every
// such number is an f32.
pub fn centre(x: u16) -> f32
    ensures { result ≡ Edge.centre x }
{
    x as f32 + 0.5
}

// The corner radius: at most half of either side. A rectangle and its radius stay two arguments, as in the
// definitions: each painter holds them in a struct of its own, beside what it alone needs.
pub fn corner_radius(rect: Rect, r: f32) -> f32
    ensures { result ≡ Edge.corner_radius rect r }
{
    mathf::max(copy_radius(rect, r), 0.0)
}

// The same for a copy, whose radius may be below zero.
pub fn copy_radius(rect: Rect, r: f32) -> f32
    ensures { result ≡ Edge.copy_radius rect r }
{
    mathf::min(mathf::min(r, rect.w * 0.5), rect.h * 0.5)
}

// The distance of the pixel (x, y) from the edge of rect.
pub fn edge_sd(rect: Rect, r: f32, x: u16, y: u16) -> f32
    ensures { result ≡ Edge.edge_sd rect r x y }
{
    corner_sd(col_axis(rect, r, x), row_axis(rect, r, y), r)
}

// Row y lies less than d in from the top or the bottom of rect.
// Here and below d is the question's own: callers ask one rectangle with several, so no struct holds both.
pub fn is_near_end(rect: Rect, d: f32, y: u16) -> bool
    ensures { result ≡ Ends.near_end rect d y }
{
    let yc = centre(y);
    yc < rect.y + d || yc > rect.bottom() - d
}

// The first column beyond those that lie less than d in from the left side. Left and right are two
// functions: one rounds up and adds, the other rounds down and subtracts.
#[tactic(auto, using(geom::proofs::Sides::cast_side))]
pub fn side_end(rect: Rect, d: f32) -> i32
    ensures { result ≡ Ends.side_end rect d }
{
    mathf::to_i32(mathf::ceil(rect.x + d))
}

// The first column of those that lie less than d in from the right side.
#[tactic(auto, using(geom::proofs::Sides::cast_side))]
pub fn side_start(rect: Rect, d: f32) -> i32
    ensures { result ≡ Ends.side_start rect d }
{
    mathf::to_i32(mathf::floor(rect.right() - d))
}

// v held to the columns lo up to hi.
// std's `clamp` asks that lo is at most hi: here lo is tried first.
pub fn clamp_cols(v: i32, lo: usize, hi: usize) -> usize
    ensures { pos result ≡ Edge.clamp_z v (pos lo) (pos hi) }
{
    let n = v.max(0) as usize;
    if n < lo { lo } else { n.min(hi) }
}

// Of the columns x0 up to x1, those from lo up to hi.
pub fn middle_cols(lo: i32, hi: i32, x0: usize, x1: usize) -> Middle
    ensures { Edge.Held lo hi x0 x1 result }
{
    let from = clamp_cols(lo, x0, x1);
    let to = clamp_cols(hi, from, x1);
    Middle { from, to }
}

// ---- the squares of `Away`. Each of the four below has a twin that differs in the direction alone: shared, a few
// lines would take the comparison and both contracts.

// A square whose like and less have roots up to b. A root grows with its square, so one test is enough;
// where it fails, the answer is a NaN, which no square is up to.
fn square_within(b: f32) -> f32
    ensures { Corner.Within b result }
{
    let t = b * b;
    let u = mathf::sqrt(t);
    if u <= b { t } else { f32::NAN }
}

// A square whose like and more have roots from b on.
fn square_beyond(b: f32) -> f32
    ensures { Corner.Beyond b result }
{
    let t = b * b;
    let u = mathf::sqrt(t);
    if u >= b { t } else { f32::NAN }
}

// b is past a by g or more, and neither is too large.
#[tactic(auto, unfolding(crate::specs::Corner::apart))]
pub fn apart(a: f32, b: f32, g: f32) -> bool
    ensures { result ≡ Corner.apart a b g }
{
    a > 0.0 && a < b && b < 16777216.0 && b - a >= g
}

// A square up to which a place lies g or more inside the circle of radius r. A quarter more than g, since
// a difference is rounded.
pub fn deep_square(r: f32, g: f32) -> f32
    ensures { Corner.Deep r g result }
{
    let b = r - g - 0.25;
    if apart(b, r, g) {
        square_within(b)
    } else {
        f32::NAN
    }
}

// A square from which on a place lies g or more outside.
pub fn far_square(r: f32, g: f32) -> f32
    ensures { Corner.Far r g result }
{
    let b = r + g + 0.25;
    if apart(r, b, g) {
        square_beyond(b)
    } else {
        f32::NAN
    }
}

#[tactic(auto, unfolding(crate::specs::Corner::away))]
fn is_away(k: Away, qx: f32, qy: f32) -> bool
    ensures { result ≡ Corner.away k qx qy }
{
    if qx > 0.0 {
        let s = qx * qx + qy * qy;
        s <= k.low || s >= k.high
    } else {
        k.flat
    }
}

// Where the run of pixels away from the edge ends that begins at pixel i, in a row of n pixels from
// column x on.
pub fn run_end(i: usize, n: usize, x: usize, rect: Rect, r: f32, qy: f32, k: Away) -> usize
    ensures { Corner.Run rect r qy k x i n result }
{
    if x > MOST_SIDE || n > MOST_SIDE {
        return i;
    }
    for e in i..n {
        let qx = col_axis(rect, r, (x + e) as u16);
        if !is_away(k, qx, qy) {
            return e;
        }
    }
    i.max(n)
}
