// A panel with a bezel or round corners.
mod entry;
mod level;

ghost use Rattle.std.specs.Prelude.{◌≡◌, true, ◌+◌, ◌-◌, ◌*◌, ◌/◌, ◌%◌, ◌≤◌, ◌<◌, min, length, get_or};
ghost use Rattle.color.specs.Color.{mix_pix};
ghost use Rattle.canvas.specs.Rows.{map_row};
ghost use Rattle.canvas.specs.Canvas.{painted_on, boxed, area_box};
ghost use Rattle.glass.specs.Places as Places;
ghost use Rattle.glass.specs.General as General;
ghost use Rattle.glass.specs.Private as Private;

use super::View;
use canvas::{Area, Size};
pub use entry::glass;
use panel::{Panel, Slope};

// The three channels of a column of the picture, times 256, at the height of a row of the canvas.
#[derive(Clone, Copy)]
pub(super) struct Column {
    pub(super) r: u32,
    pub(super) g: u32,
    pub(super) b: u32,
}

// A column and the next.
#[derive(Clone, Copy)]
pub(super) struct Columns {
    pub(super) left: Column,
    pub(super) right: Column,
}

// The place in the picture that a pixel shows.
#[derive(Clone, Copy)]
struct Spot {
    fx: usize,
    fy: usize,
}

// The picture's colour at a place. fy is asked to lie in the picture wherever a place is taken: it is the
// answer of one function, and a type of it would be taken apart at once. So it is with t, a remainder that
// is used at once, and with x, another column in each call.

fn blend(t: u32, a: u32, b: u32) -> u32
    requires { (t ≤ 256) × (a ≤ 65280) × (b ≤ 65280) }
    ensures { result ≡ General.blend t a b }
{
    a * (256 - t) + b * t
}

pub(super) fn next(n: usize, f: usize) -> usize
    requires { 1 ≤ n }
    ensures { result ≡ General.next n f }
{
    (f / 256 + 1).min(n - 1)
}

// Between four cells: the two columns about the place, and then the place between them.
fn soft(view: View, fx: usize, fy: usize) -> u32
    requires { (fx < view.p.lw * 256) × (fy < view.p.lh * 256) }
    ensures { result ≡ General.soft view.entry.p view.entry.lo.now fx fy }
{
    let k = columns_at(view, fy, fx / 256);
    panel::lit(view.p, between(k, (fx % 256) as u32))
}

// The inside.

fn inside_pix(view: View, x: u16, y: u16) -> u32
    ensures { result ≡ General.inside_pix view.entry.p view.entry.lo.now x y }
{
    if view.p.k == 1 {
        let col = (x as usize).saturating_sub(view.p.wx).min(view.p.lw - 1);
        let row = (y as usize).saturating_sub(view.p.wy).min(view.p.lh - 1);
        return panel::lit(view.p, super::pix_at(view.lo, (row * view.p.lw + col) * 3));
    }
    soft(view, super::col_place(view, x), super::row_place(view, y))
}

// The pixels of row y from column x on, all inside.
fn inside_row(dst: &mut [u32], x: usize, y: u16, view: View)
    requires { x + length dst.old ≤ 4096 }
    ensures { dst.new ≡ map_row (λ i q. General.inside_pix view.entry.p view.entry.lo.now (x + i) y) dst.old }
{
    if view.p.k == 1 {
        copied_row(dst, x, y, view);
    } else {
        super::upsample::upsampled_row(dst, x, y, view, false);
    }
}

// Where a cell is one pixel: cells side by side, unless the row leaves the picture.
fn copied_row(dst: &mut [u32], x: usize, y: u16, view: View)
    requires { (x + length dst.old ≤ 4096) × (view.p.k ≡ 1) }
    ensures { dst.new ≡ map_row (λ i q. General.inside_pix view.entry.p view.entry.lo.now (x + i) y) dst.old }
{
    let n = dst.len();
    if x < view.p.wx || x - view.p.wx + n > view.p.lw {
        canvas::map_pixels(dst, |i, _| inside_pix(view, (x + i) as u16, y));
        return;
    }
    let col = x - view.p.wx;
    let row = (y as usize).saturating_sub(view.p.wy).min(view.p.lh - 1);
    super::cells_row(dst, view.lo, (row * view.p.lw + col) * 3, view.p);
}

// Between cells: a column of cells is mixed once for all the pixels beside it.
pub(super) fn soft_row(dst: &mut [u32], x: usize, y: u16, view: View)
    requires { x + length dst.old ≤ 4096 }
    ensures { dst.new ≡ map_row (λ i q. General.soft view.entry.p view.entry.lo.now (Places.col_place view.entry.p (x + i)) (Places.row_place view.entry.p y)) dst.old }
{
    let fy = super::row_place(view, y);
    let mut kept = columns_at(view, fy, 0);
    let mut held = 0;
    for i in 0..dst.len() {
        let fx = super::col_place(view, (x + i) as u16);
        let at = fx / 256;
        kept = beside(kept, held, view, fy, at);
        held = at;
        let q = between(kept, (fx % 256) as u32);
        dst[i] = panel::lit(view.p, q);
    }
}

fn column_ch(lo: &[u8], above: usize, below: usize, t: u32, c: usize) -> u32
    requires { (above + c < length lo.now) × (below + c < length lo.now) × (t ≤ 256) }
    ensures { (result ≡ General.blend t (get_or lo.now (above + c) 0) (get_or lo.now (below + c) 0)) × (result ≤ 65280) }
{
    blend(t, u32::from(lo[above + c]), u32::from(lo[below + c]))
}

// The column x of the picture at the place fy of its rows.
fn column_at(view: View, fy: usize, x: usize) -> Column
    requires { (fy < view.p.lh * 256) × (x < view.p.lw) }
    ensures { Private.IsColumn view.entry.lo.now view.entry.p.lw view.entry.p.lh fy x result }
{
    let above = (fy / 256 * view.p.lw + x) * 3;
    let below = (next(view.p.lh, fy) * view.p.lw + x) * 3;
    let t = (fy % 256) as u32;
    let r = column_ch(view.lo, above, below, t, 0);
    let g = column_ch(view.lo, above, below, t, 1);
    let b = column_ch(view.lo, above, below, t, 2);
    Column { r, g, b }
}

fn columns_at(view: View, fy: usize, x: usize) -> Columns
    requires { (fy < view.p.lh * 256) × (x < view.p.lw) }
    ensures { Private.AreColumns view.entry.lo.now view.entry.p.lw view.entry.p.lh fy x result }
{
    let left = column_at(view, fy, x);
    let right = column_at(view, fy, (x + 1).min(view.p.lw - 1));
    Columns { left, right }
}

// The columns x and x + 1, of which `kept`, those of the column held, may be one or both already.
// In line, since most pixels keep both. What is known of them names the view and fy too: `kept` and `held`
// in one struct would drop no clause.
#[inline(always)]
fn beside(kept: Columns, held: usize, view: View, fy: usize, x: usize) -> Columns
    requires in_picture { (fy < view.p.lh * 256) × (x < view.p.lw) × (held < view.p.lw) }
    requires kept { Private.AreColumns view.lo.now view.p.lw view.p.lh fy held kept }
    ensures { Private.AreColumns view.entry.lo.now view.entry.p.lw view.entry.p.lh fy x result }
{
    if x == held {
        return kept;
    }
    if x == held + 1 {
        let right = column_at(view, fy, (x + 1).min(view.p.lw - 1));
        let left = kept.right;
        return Columns { left, right };
    }
    columns_at(view, fy, x)
}

// t of 256 parts of the way from the left column to the right one; a `Color` takes bytes, to which the
// channels would be cut first.
fn between(k: Columns, t: u32) -> u32
    requires { (Private.Small k.left) × (Private.Small k.right) × (t ≤ 256) }
    ensures { result ≡ Private.between k t }
{
    let left = k.left;
    let right = k.right;
    let r = blend(t, left.r, right.r) / 65536;
    let g = blend(t, left.g, right.g) / 65536;
    let b = blend(t, left.b, right.b) / 65536;
    r * 65536 + g * 256 + b
}

// The edge.

// The place that the pixel (x, y) of the edge sees.
fn sight(view: View, s: Slope, x: u16, y: u16) -> Spot
    ensures { result ≡ record { fx = General.edge_col_place view.entry.p view.entry.table.now s x; fy = General.edge_row_place view.entry.p view.entry.table.now s y } }
{
    let p = view.p;
    if let Some(b) = panel::bent(p, view.table, panel::depth(s.sd)) {
        let fx = super::place(p.k, p.lw, panel::seen(p.wx as u16, x, s.nx, b));
        let fy = super::place(p.k, p.lh, panel::seen(p.wy as u16, y, s.ny, b));
        return Spot { fx, fy };
    }
    let fx = super::col_place(view, x);
    let fy = super::row_place(view, y);
    Spot { fx, fy }
}

fn edge_pix(q: u32, x: u16, y: u16, view: View) -> u32
    ensures { result ≡ General.edge_pix view.entry.p view.entry.table.now view.entry.lo.now x y q }
{
    let s = panel::slope_at(view.p, x, y);
    if s.sd > 0.5 {
        return q;
    }
    let a = sight(view, s, x, y);
    panel::laid(edge::cov8(s.sd), soft(view, a.fx, a.fy), q)
}

// Row y has pixels of the inside, if a column has.
#[tactic(auto, unfolding(crate::specs::General::within))]
fn row_inside(p: Panel, y: u16) -> bool
    ensures { result ≡ General.row_inside p y }
{
    (p.iy0..p.iy1).contains(&(y as usize))
}

fn general_pix(q: u32, x: u16, y: u16, view: View) -> u32
    ensures { result ≡ General.general_pix view.entry.p view.entry.table.now view.entry.lo.now x y q }
{
    if row_inside(view.p, y) && (view.p.ix0..view.p.ix1).contains(&(x as usize)) {
        return inside_pix(view, x, y);
    }
    edge_pix(q, x, y, view)
}

// The rows.

fn edge_row(dst: &mut [u32], x: usize, y: u16, view: View)
    requires { x + length dst.old ≤ 4096 }
    ensures { dst.new ≡ map_row (λ i q. General.general_pix view.entry.p view.entry.table.now view.entry.lo.now (x + i) y q) dst.old }
{
    canvas::map_pixels(dst, |i, q| general_pix(q, (x + i) as u16, y, view));
}

// Of n columns from x on, those from the first up to the second of these lie inside.

fn inside_from(p: Panel, x: usize, n: usize) -> usize
    ensures { result ≡ min (p.ix0 - x) n }
{
    p.ix0.saturating_sub(x).min(n)
}

fn inside_to(p: Panel, x: usize, a: usize, n: usize) -> usize
    requires { a ≡ min (p.ix0 - x) n }
    ensures { (Private.Inside p x a result) × (a ≤ result) × (result ≤ n) }
{
    p.ix1.saturating_sub(x).min(n).max(a)
}

// A row that the inside reaches is cut in three: the edge, the inside, and the edge again.
fn general_row(dst: &mut [u32], x: usize, y: u16, a: usize, b: usize, view: View)
    requires row { (x + length dst.old ≤ 4096) × (a ≤ b) × (b ≤ length dst.old) }
    requires inside { Private.Inside view.p x a b }
    ensures { dst.new ≡ map_row (λ i q. General.general_pix view.entry.p view.entry.table.now view.entry.lo.now (x + i) y q) dst.old }
{
    if row_inside(view.p, y) {
        let n = dst.len();
        edge_row(&mut dst[..a], x, y, view);
        inside_row(&mut dst[a..b], x + a, y, view);
        edge_row(&mut dst[b..n], x + b, y, view);
        return;
    }
    level::level_row(dst, x, y, view);
}

fn general_rows(px: &mut [u32], size: Size, area: Area, view: View)
    ensures { px.new ≡ painted_on size.w size.h (boxed (area_box area) (General.general_pix view.entry.p view.entry.table.now view.entry.lo.now)) px.old }
{
    let x0 = area.x0;
    let n = area.x1.min(size.w).saturating_sub(x0);
    let a = inside_from(view.p, x0, n);
    let b = inside_to(view.p, x0, a, n);
    canvas::paint_rows(px, size, area, |y, row| {
        general_row(row, x0, y as u16, a, b, view);
    });
}
