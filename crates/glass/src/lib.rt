// A panel of glass over the canvas: places and colours of its small picture, and the rows of a flat
// panel. A row's pixels go with its column and its number beside them: a value of the three would be made
// anew for each part of a row.
#![tactic(auto)]

mod general;
mod upsample;

ghost use Rattle.std.specs.Prelude.{◌≡◌, ℕ, true, ◌+◌, ◌-◌, ◌*◌, ◌/◌, ◌%◌, ◌≤◌, ◌<◌, min, length, get_or, IfSome};
ghost use Rattle.color.specs.Color.{mix_pix};
ghost use Rattle.canvas.specs.Rows.{map_row};
ghost use Rattle.canvas.specs.Canvas.{painted_on, boxed, area_box};
ghost use Rattle.panel.specs.Panel as Panels;
ghost use Rattle.glass.specs.Places as Places;
ghost use Rattle.glass.specs.Private as Private;
ghost use Rattle.glass.specs.Flat as Flat;

pub use backdrop::GlassStyle;
use canvas::{Area, Size};
pub use general::glass;
use geom::Rect;
use panel::Panel;

// A panel's place and style.
#[derive(Clone, Copy)]
pub struct Pane {
    pub rect: Rect,
    pub style: GlassStyle,
}

// A panel with its table and its small picture, which has a pixel. `bytes` keeps what is known of a byte.
#[derive(Clone, Copy)]
struct View<'a> {
    lo: &'a [u8],
    p: Panel,
    table: &'a [f32; 33],
    ghost sized: { Private.Sized p lo.now },
    ghost bytes: { (i : ℕ) → get_or lo.now i 0 < 256 },
}

// The places in the picture. The byte of a cell is written out where it is met: a method would ask that
// row and column lie in the picture, and each place would still show that all the bytes it takes do. A
// column or a row held to the picture is one line, and each stands twice.

// By cases: a quotient by a number that is not known is slow.
fn shrunk(k: usize, v: usize) -> usize
    requires { (1 ≤ k) × (k ≤ 4) × (k ≡ 3 → ⊥) × (v ≤ 16777215) }
    ensures { result ≡ Places.shrunk k v }
{
    match k {
        1 => v,
        2 => ((v + 128) / 2).saturating_sub(128),
        _ => ((v + 128) / 4).saturating_sub(128),
    }
}

#[tactic(auto, unfolding(crate::specs::Places::place))]
fn place(k: usize, n: usize, v: usize) -> usize
    requires { (1 ≤ k) × (k ≤ 4) × (k ≡ 3 → ⊥) × (v ≤ 16777215) × (1 ≤ n) × (n ≤ 4096) }
    ensures { result ≡ Places.place k n v }
{
    shrunk(k, v).min(((n - 1) * 256).saturating_sub(1))
}

// A line each for the two directions: Places names both.

fn col_place(view: View, x: u16) -> usize
    ensures { result ≡ Places.col_place view.entry.p x }
{
    place(
        view.p.k,
        view.p.lw,
        (x as usize).saturating_sub(view.p.wx) * 256,
    )
}

fn row_place(view: View, y: u16) -> usize
    ensures { result ≡ Places.row_place view.entry.p y }
{
    place(
        view.p.k,
        view.p.lh,
        (y as usize).saturating_sub(view.p.wy) * 256,
    )
}

// The colours.

// The cell whose bytes begin at o, as a pixel. Tried: by `Color::rgb` and `pix` it proves, but the loop
// over a row of cells is slower.
fn pix_at(lo: &[u8], o: usize) -> u32
    requires { o + 3 ≤ length lo.now }
    ensures { result ≡ Places.pix_at lo.now o }
{
    u32::from(lo[o]) * 65536 + u32::from(lo[o + 1]) * 256 + u32::from(lo[o + 2])
}

// The cells from the byte `at` on, one for each pixel.
fn cells_row(dst: &mut [u32], lo: &[u8], at: usize, p: Panel)
    requires { at + length dst.old * 3 ≤ length lo.now }
    ensures { dst.new ≡ map_row (λ i q. Panels.lit p (Places.pix_at lo.now (at + i * 3))) dst.old }
{
    copy_cells(dst, lo, at);
    lit_clear(dst, p);
}

// The brightness, over pixels whose top byte is 0: without any they stay.
fn lit_clear(dst: &mut [u32], p: Panel)
    requires { Private.Clear dst.old }
    ensures { dst.new ≡ map_row (λ i q. Panels.lit p q) dst.old }
{
    if p.up != 0 || p.down != 0 {
        panel::lit_row(dst, p);
    }
}

// The cells alone, without the brightness.
fn copy_cells(dst: &mut [u32], lo: &[u8], at: usize)
    requires { at + length dst.old * 3 ≤ length lo.now }
    ensures { dst.new ≡ map_row (λ i q. Places.pix_at lo.now (at + i * 3)) dst.old }
{
    canvas::map_pixels(dst, |i, _| pix_at(lo, at + i * 3));
}

// The rows of a flat panel: every pixel between four cells, mixed down first and then across. Its columns
// are pixels, rounded before they are mixed across, and so no columns of another panel.

// The colours of two neighbouring columns of the picture, at the height of a row of the canvas.
// `general::Columns` holds three channels of each, times 256.
#[derive(Clone, Copy)]
struct Pair {
    left: u32,
    right: u32,
}

// The colour of the column whose cell begins at o, t of 256 parts of the way to the row below, step
// bytes on.
fn down(lo: &[u8], o: usize, step: usize, t: u32) -> u32
    requires { o + step + 3 ≤ length lo.now }
    ensures { result ≡ mix_pix (Places.pix_at lo.now o) (Places.pix_at lo.now (o + step)) t }
{
    color::mix_pix(pix_at(lo, o), pix_at(lo, o + step), t)
}

// The column x of the picture, at the place fy of its rows. x is another column in each call, and so is
// asked for.
fn column(view: View, fy: usize, x: usize) -> u32
    requires { (fy / 256 + 1 < view.p.lh) × (x < view.p.lw) }
    ensures { result ≡ Flat.column view.entry.lo.now view.entry.p.lw fy x }
{
    down(
        view.lo,
        (fy / 256 * view.p.lw + x) * 3,
        view.p.lw * 3,
        (fy % 256) as u32,
    )
}

// The columns x and x + 1, of which `kept`, those of the column held, may be one or both already.
// `general::beside` does so for columns of another kind, whose last is its own next. One function of both
// would take a closure for the column, and its clause would speak of the closure's where these two name
// the column itself. `kept` and `held` in one struct would drop no clause: what is known of them names the
// view and fy, which are no part of them.
fn columns(kept: Pair, held: usize, view: View, fy: usize, x: usize) -> Pair
    requires in_picture { (fy / 256 + 1 < view.p.lh) × (x + 1 < view.p.lw) × (held ≤ view.p.lw) }
    requires kept { kept ≡ Private.pair_at view.lo.now view.p.lw fy held }
    ensures { result ≡ Private.pair_at view.entry.lo.now view.entry.p.lw fy x }
{
    if x == held {
        return kept;
    }
    let right = column(view, fy, x + 1);
    if x == held + 1 {
        return Pair {
            left: kept.right,
            right,
        };
    }
    let left = column(view, fy, x);
    Pair { left, right }
}

// Row y from column x on. Two columns and two rows of cells are asked for by each function of a flat row: a
// type of such a view would be opened at once, for places and colours are those of any.
fn flat_row(dst: &mut [u32], x: usize, y: u16, view: View)
    requires { (2 ≤ view.p.lw) × (2 ≤ view.p.lh) × (x + length dst.old ≤ 4096) }
    ensures { dst.new ≡ map_row (λ i q. Flat.flat_pix view.entry.p view.entry.lo.now (x + i) y) dst.old }
{
    if is_whole(view, x, y) {
        whole_row(dst, x, y, view);
    } else {
        upsample::upsampled_row(dst, x, y, view, true);
    }
}

// Where a cell is two or four pixels wide, as many pixels at a time lie between the same two columns of
// cells, always at the same places between them. The first such run begins after `lead` pixels, between
// the columns m and m + 1.
#[derive(Clone, Copy)]
struct Runs {
    lead: usize,
    m: usize,
    count: usize,
}

// The runs among n pixels from column x on, if there are any; a short row has none.
fn runs_in(view: View, x: usize, n: usize) -> Option<Runs>
    requires { (x ≤ 4096) × (n ≤ 4096) }
    ensures { IfSome result (Private.Fit view.entry.p x n) }
{
    if n < 8 || x < view.p.wx {
        return None;
    }
    let dx = x - view.p.wx;
    match view.p.k {
        4 => {
            let lead = (6 - dx % 4) % 4;
            runs_of(view.p, lead, (dx + lead) / 4, (n - lead) / 4)
        }
        2 => {
            let lead = (dx + 1) % 2;
            runs_of(view.p, lead, (dx + lead) / 2, (n - lead) / 2)
        }
        _ => None,
    }
}

// At most `most` runs, and none past the last column of cells.
fn runs_of(p: Panel, lead: usize, m: usize, most: usize) -> Option<Runs>
    requires { 1 ≤ p.lw }
    ensures { IfSome result (λ s. (s ≡ record { lead = lead; m = m; count = min most (p.lw - 1 - m) }) × (1 ≤ s.count)) }
{
    let count = most.min((p.lw - 1).saturating_sub(m));
    if count == 0 {
        return None;
    }
    Some(Runs { lead, m, count })
}

// A cell is one pixel, and the row lies on a row of cells.
#[tactic(auto, unfolding(crate::specs::Private::is_whole))]
fn is_whole(view: View, x: usize, y: u16) -> bool
    ensures { result ≡ Private.is_whole view.entry.p x y }
{
    view.p.k == 1 && view.p.wx <= x && row_place(view, y) % 256 == 0
}

// Such a row: each pixel is its cell, but for the last column of cells, which is mixed.
fn whole_row(dst: &mut [u32], x: usize, y: u16, view: View)
    requires row { (2 ≤ view.p.lw) × (2 ≤ view.p.lh) × (x + length dst.old ≤ 4096) }
    requires whole { Private.is_whole view.p x y ≡ true }
    ensures { dst.new ≡ map_row (λ i q. Flat.flat_pix view.entry.p view.entry.lo.now (x + i) y) dst.old }
{
    let n = dst.len();
    let row = row_place(view, y) / 256;
    let col = x.saturating_sub(view.p.wx).min(view.p.lw - 1);
    let m = (view.p.lw - 1 - col).min(n);
    cells_row(&mut dst[..m], view.lo, (row * view.p.lw + col) * 3, view.p);
    mixed_row(&mut dst[m..n], x + m, y, view);
}

// Row y from column x on, each pixel mixed of four cells. `general::soft_row` walks so over columns of
// another kind: one loop of both would take closures that find them and mix them.
fn mixed_row(dst: &mut [u32], x: usize, y: u16, view: View)
    requires { (2 ≤ view.p.lw) × (2 ≤ view.p.lh) × (x + length dst.old ≤ 4096) }
    ensures { dst.new ≡ map_row (λ i q. Flat.flat_pix view.entry.p view.entry.lo.now (x + i) y) dst.old }
{
    let fy = row_place(view, y);
    let left = column(view, fy, 0);
    let right = column(view, fy, 1);
    let mut kept = Pair { left, right };
    let mut held = 0;
    for i in 0..dst.len() {
        let fx = col_place(view, (x + i) as u16);
        let at = fx / 256;
        kept = columns(kept, held, view, fy, at);
        held = at;
        let q = color::mix_pix(kept.left, kept.right, (fx % 256) as u32);
        dst[i] = panel::lit(view.p, q);
    }
}

fn flat_rows(px: &mut [u32], size: Size, area: Area, view: View)
    requires { (2 ≤ view.p.lw) × (2 ≤ view.p.lh) }
    ensures { px.new ≡ painted_on size.w size.h (boxed (area_box area) (λ x y q. Flat.flat_pix view.entry.p view.entry.lo.now x y)) px.old }
{
    canvas::paint_rows(
        px,
        size,
        area,
        |y, row| flat_row(row, area.x0, y as u16, view),
    );
}
