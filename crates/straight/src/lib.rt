// A source copied pixel by pixel, under a mask with rounded corners.
#![tactic(auto)]

ghost use Rattle.std.specs.Prelude.{◌≡◌, true, ◌||◌, ◌+◌, ◌≤◌, ◌<◌, ltb, leb, length, get_or};
ghost use Rattle.color.specs.Color.{mix_pix, dim_pix};
ghost use Rattle.edge.specs.Edge.{natural};
ghost use Rattle.canvas.specs.Rows.{map_row, copied};
ghost use Rattle.canvas.specs.Canvas.{painted_on, boxed, area_box};
ghost use Rattle.sources.specs.Source.{is_source};
ghost use Rattle.straight.specs.Straight.{far_side, copy_box, place as place_of, corner_span, is_first, is_last, parts as parts_of, coverage as coverageOf, inner_pix, edge_pix, corner_pix, source_pix, mask_of, straight_rule};
ghost use Rattle.straight.specs.Private.{Covers};

use canvas::Size;
use geom::{IRect, Rect};
use sources::Sides;

// A copy's own numbers: at (x, y), with the corner radius r, at alpha of 255, darkened by dim of 256.
#[derive(Clone, Copy)]
pub struct Blit {
    pub x: i32,
    pub y: i32,
    pub r: f32,
    pub alpha: u32,
    pub dim: u32,
}

// A copy with what is worked out once for it: the source's rectangle, and the radius cut to it.
#[derive(Clone, Copy)]
struct Mask {
    rect: Rect,
    r: f32,
    blit: Blit,
}

// The source src of these sides, copied as the blit says. The slice and its sides are two, as
// `straight_rule` has them, and so are px and size, as `painted_on` has them: px may be no canvas of the
// size, and stays then.
pub fn blit_rounded_dim(
    px: &mut [u32],
    size: Size,
    clip: IRect,
    src: &[u32],
    sides: Sides,
    blit: Blit,
)
    ensures { px.new ≡ painted_on size.w size.h (straight_rule size.w size.h clip src.now sides blit) px.old }
{
    if sources::is_source(sides, src.len()) {
        let area = size.area_on(px.len(), clip, copy_box(blit.x, blit.y, sides));
        // An empty box makes no mask.
        if area.is_empty() {
            return;
        }
        let mask = mask_of(sides, blit);
        let x0 = area.x0;
        let sx = place(blit.x, x0 as u16);
        let span = corner_span(mask.r);
        canvas::paint_rows(
            px,
            size,
            area,
            |y, dst| copy_row(dst, x0, y as u16, src, sides, mask, sx, span),
        );
    }
}

#[tactic(auto, unfolding(crate::specs::Straight::mask_of))]
fn mask_of(sides: Sides, blit: Blit) -> Mask
    requires { (sides.w ≤ 4096) × (sides.h ≤ 4096) }
    ensures { result ≡ mask_of sides blit }
{
    let rect = Rect::new(
        mathf::of_i32(blit.x),
        mathf::of_i32(blit.y),
        mathf::of_u32(sides.w as u32),
        mathf::of_u32(sides.h as u32),
    );
    let r = edge::copy_radius(rect, blit.r);
    Mask { rect, r, blit }
}

// The pixels that a source of the sides s at (x, y) covers.
#[tactic(auto, using(std::proofs::lemmas::Int::ints), unfolding(crate::specs::Straight::copy_box, crate::specs::Straight::far_side, geom::specs::Geom::min_z))]
pub fn copy_box(x: i32, y: i32, sides: Sides) -> IRect
    ensures { result ≡ copy_box x y sides }
{
    IRect::new(x, y, far_side(x, sides.w), far_side(y, sides.h))
}

// The side of n places from x on, held to the largest i32, which no canvas reaches.
#[tactic(auto, using(std::proofs::lemmas::Int::ints, std::proofs::lemmas::Int::clamps), unfolding(crate::specs::Straight::far_side, geom::specs::Geom::min_z))]
fn far_side(x: i32, n: usize) -> i32
    ensures { result ≡ far_side x n }
{
    let n = n.min(u32::MAX as usize) as i64;
    (i64::from(x) + n).min(i64::from(i32::MAX)) as i32
}

// The source's column or row under the canvas's column or row v, of a source that starts at x.
#[tactic(auto, using(std::proofs::lemmas::Int::ints), unfolding(crate::specs::Straight::place))]
fn place(x: i32, v: u16) -> usize
    ensures { result ≡ place_of x v }
{
    natural(i64::from(v) - i64::from(x))
}

// The columns, and the rows, that a corner of the radius r takes.
#[tactic(auto, using(std::proofs::lemmas::Int::ints), unfolding(crate::specs::Straight::corner_span))]
fn corner_span(r: f32) -> usize
    ensures { (result ≡ corner_span r) × (result ≤ 2147483648) }
{
    natural(i64::from(mathf::to_i32(mathf::ceil(r))) + 1)
}

// 0 where d is below.
fn natural(d: i64) -> usize
    ensures { result ≡ natural d }
{
    d.max(0) as usize
}

// Row y of the canvas from column x on, from the source's row under it. The source's column sx lies under
// column x, and a corner takes span columns: both are the same in each row, and are found once.
fn copy_row(
    dst: &mut [u32],
    x: usize,
    y: u16,
    src: &[u32],
    sides: Sides,
    mask: Mask,
    sx: usize,
    span: usize,
)
    requires source { is_source sides (length src.now) ≡ true }
    requires found { (sx ≡ place_of mask.blit.x x) × (span ≡ corner_span mask.r) × (span ≤ 2147483648) }
    requires inside { x + length dst.old ≤ 4096 }
    requires over { (Covers mask.blit.x sides.w x (x + length dst.old)) × (Covers mask.blit.y sides.h y (y + 1)) }
    ensures { dst.new ≡ map_row (λ i p. source_pix src.now sides mask (place_of mask.blit.x (x + i)) (place_of mask.blit.y y) (x + i) y p) dst.old }
{
    let sy = place(mask.blit.y, y);
    let n = dst.len();
    let start = sources::row_start(sides, sy) + sx;
    let row = &src[start..start + n];
    if has_corners(span, sides.h, sy) {
        let a = span.saturating_sub(sx).min(n);
        let b = sides.w.saturating_sub(sx + span).min(n);
        corner_row(dst, row, a, b, x, y, mask);
    } else {
        row_inner(dst, row, mask.blit);
    }
}

// The row sy of sh passes through corners. That a span is small enough to be added stands in each
// contract: a type to hold it would serve two sums.
fn has_corners(span: usize, sh: usize, sy: usize) -> bool
    requires { (span ≤ 2147483648) × (sy ≤ 4096) }
    ensures { result ≡ is_first span sy || is_last span sh sy }
{
    sy < span || sh <= sy + span
}

// A row of the canvas and the source's row under it are two slices of one length: a struct of both
// would be taken apart and made again for each span. So would one of a row and its first column.

// A row whose columns below a lie in the left corner, and those from b on in the right one. Those in
// both are painted twice.
fn corner_row(dst: &mut [u32], row: &[u32], a: usize, b: usize, x: usize, y: u16, mask: Mask)
    requires source { (length dst.old ≡ length row.now) × (a ≤ length dst.old) × (b ≤ length dst.old) }
    requires inside { x + length dst.old ≤ 4096 }
    ensures { dst.new ≡ map_row (λ i p. corner_pix (ltb i a) (leb b i) mask (get_or row.now i 0) (x + i) y p) dst.old }
{
    let end = a.max(b);
    row_inner(&mut dst[a..end], &row[a..end], mask.blit);
    row_edge(&mut dst[..a], &row[..a], x, y, mask);
    row_edge(&mut dst[b..], &row[b..], x + b, y, mask);
}

// The pixels of row y from column x on, each by its coverage.
fn row_edge(dst: &mut [u32], row: &[u32], x: usize, y: u16, mask: Mask)
    requires { (length dst.old ≡ length row.now) × (x + length dst.old ≤ 4096) }
    ensures { dst.new ≡ map_row (λ i p. edge_pix mask (get_or row.now i 0) (x + i) y p) dst.old }
{
    canvas::map_pixels(dst, |i, p| mask.edge_pix(p, row[i], (x + i) as u16, y));
}

impl Mask {
    // The source's pixel t over p, by its coverage.
    #[tactic(auto, unfolding(crate::specs::Straight::edge_pix))]
    fn edge_pix(self, p: u32, t: u32, x: u16, y: u16) -> u32
        ensures { result ≡ edge_pix self t x y p }
    {
        let cov = self.coverage(x, y);
        if cov == 0 {
            return p;
        }
        color::mix_pix(p, color::dim_pix(t, self.blit.dim), parts(cov))
    }

    // How much of 255 is copied of the source at the canvas's pixel (x, y).
    #[tactic(auto, unfolding(crate::specs::Straight::coverage))]
    fn coverage(self, x: u16, y: u16) -> u32
        ensures { result ≡ coverageOf self x y }
    {
        let d = edge::edge_sd(self.rect, self.r, x, y);
        mathf::to_u32(mathf::saturate(0.5 - d) * mathf::of_u32(self.blit.alpha))
    }
}

// a of 255 as parts of 256.
#[tactic(auto, unfolding(crate::specs::Straight::parts))]
fn parts(a: u32) -> u32
    ensures { result ≡ parts_of a }
{
    if a < 255 { a } else { 256 }
}

// The pixels clear of the corners: stored or mixed, as `inner_pix` has it.
fn row_inner(dst: &mut [u32], row: &[u32], blit: Blit)
    requires { length dst.old ≡ length row.now }
    ensures { dst.new ≡ map_row (λ i p. inner_pix blit (get_or row.now i 0) p) dst.old }
{
    if blit.alpha >= 255 {
        row_store(dst, row, blit.dim);
    } else {
        row_fade(dst, row, blit.dim, parts(blit.alpha));
    }
}

// Stored, with a top byte of 0: the row copy clears it, and what is darkened has none.
fn row_store(dst: &mut [u32], row: &[u32], dim: u32)
    requires { length dst.old ≡ length row.now }
    ensures { dst.new ≡ map_row (λ i p. copied (dim_pix (get_or row.now i 0) dim)) dst.old }
{
    if dim == 0 {
        canvas::row_copy(dst, row);
    } else {
        canvas::map_pixels(dst, |i, _| color::dim_pix(row[i], dim));
    }
}

// Mixed, t256 of 256 parts.
fn row_fade(dst: &mut [u32], row: &[u32], dim: u32, t256: u32)
    requires { length dst.old ≡ length row.now }
    ensures { dst.new ≡ map_row (λ i p. mix_pix p (dim_pix (get_or row.now i 0) dim) t256) dst.old }
{
    if dim == 0 {
        canvas::row_mix(dst, row, t256);
    } else {
        canvas::map_pixels(
            dst,
            |i, p| color::mix_pix(p, color::dim_pix(row[i], dim), t256),
        );
    }
}
