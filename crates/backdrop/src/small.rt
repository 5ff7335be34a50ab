// The small picture: the window's pixels made smaller, blurred and tinted. A cell is the mean of k × k
// pixels, three bytes side by side, as the box passes and C take them. An array that a call returns is
// bound before a variable takes it: the check refuses to assign it at once.
ghost use Rattle.std.specs.Prelude.{◌≡◌, ◌+◌, ◌-◌, ◌*◌, ◌/◌, ◌%◌, ◌≤◌, ◌<◌, min, nat_abs, length, get_or, set, drop};
ghost use Rattle.std.specs.Int.Signed.{shr_z};
ghost use Rattle.canvas.specs.Rows.{map_row, below};
ghost use Rattle.backdrop.specs.Window.{columns, rows};
ghost use Rattle.backdrop.specs.Window as Window;
ghost use Rattle.backdrop.specs.Picture as Picture;
ghost use Rattle.backdrop.specs.Picture.{crop, channel, cell_mean, shrunk, tinted};
ghost use Rattle.backdrop.specs.Private.{Shown, AnyScale, Within, RowsIn, rgb, row_start, four_rows, from_column, along, block_mean, tinted_cell};

use super::GlassStyle;
use canvas::{Area, Size};
use color::Color;
use geom::Rect;

// The channels of a pixel.
fn channels(p: u32) -> [u32; 3]
    ensures { result ≡ rgb (λ ch. channel ch p) }
{
    let c = Color::from_pix(p);
    [u32::from(c.r), u32::from(c.g), u32::from(c.b)]
}

fn add(a: [u32; 3], b: [u32; 3]) -> [u32; 3]
    requires { Within 4080 a × Within 4080 b }
    ensures { result ≡ rgb (λ ch. get_or a ch 0 + get_or b ch 0) }
{
    [a[0] + b[0], a[1] + b[1], a[2] + b[2]]
}

// The nth part of a sum of n bytes.
fn share(s: u32, n: u32) -> u8
    requires { (1 ≤ n) × (s ≤ n * 255) }
    ensures { result ≡ s / n }
{
    (s / n) as u8
}

fn mean(s: [u32; 3], n: u32) -> [u8; 3]
    requires { (1 ≤ n) × Within (n * 255) s }
    ensures { result ≡ rgb (λ ch. get_or s ch 0 / n) }
{
    [share(s[0], n), share(s[1], n), share(s[2], n)]
}

// The channels, summed over the K pixels from column x on of the row that begins at `at`, whose last column
// m stands for those past it.
fn sum<const K: usize>(px: &[u32], at: usize, x: usize, m: usize) -> [u32; 3]
    requires { (at + m < length px.now) × (x ≤ 16384) × (K ≤ 4) }
    ensures { result ≡ rgb (along K px.now at m x) }
{
    let mut t = [0, 0, 0];
    for i in 0..K {
        let next = add(t, channels(px[at + (x + i).min(m)]));
        t = next;
    }
    t
}

// One cell of K by K pixels, from column x on of the rows that begin at s. K is a constant and the cell
// part of its row's loop, so that the compiler unrolls both loops and takes several cells of a row at a
// time. A constant has no invariant: each function says which scales there are.
#[inline(always)]
fn cell<const K: usize>(px: &[u32], s: [usize; 4], x: usize, m: usize) -> [u8; 3]
    requires { RowsIn (length px.now) m s × (x ≤ 16384) × AnyScale K }
    ensures { result ≡ rgb (block_mean K px.now s m x) }
{
    let mut t = [0, 0, 0];
    for j in 0..K {
        let next = add(t, sum::<K>(px, s[j], x, m));
        t = next;
    }
    mean(t, (K * K) as u32)
}

// Where the rows' column x is. Rows go as the places where they begin: slices of them would be cut anew for
// each cell. Their last column goes beside them, since it is the cell's own inside a row.
fn from_column(s: [usize; 4], x: usize) -> [usize; 4]
    requires { RowsIn 18446744073709551616 x s }
    ensures { result ≡ from_column s x }
{
    [s[0] + x, s[1] + x, s[2] + x, s[3] + x]
}

// Cell i of a row, all of whose columns are the row's own: none is held.
fn inside<const K: usize>(px: &[u32], s: [usize; 4], i: usize) -> [u8; 3]
    requires { RowsIn (length px.now) (K * i + K - 1) s × AnyScale K × (i ≤ 4096) }
    ensures { result ≡ rgb (block_mean K px.now s (K * i + K - 1) (K * i)) }
{
    cell::<K>(px, from_column(s, K * i), 0, K - 1)
}

// Three bytes stored from `o` on, each by itself, as `tinted_cell` says. Tried: of a copy of c into a part of
// out the check doesn't find that it is these three stores.
fn put(out: &mut [u8], o: usize, c: [u8; 3])
    requires { o + 2 < length out.old }
    ensures { out.new ≡ set (set (set out.old o (get_or c 0 0)) (o + 1) (get_or c 1 0)) (o + 2) (get_or c 2 0) }
{
    out[o] = c[0];
    out[o + 1] = c[1];
    out[o + 2] = c[2];
}

// The first n cells of a row of cells of K by K, all of whose columns are the row's own.
fn row_inside<const K: usize>(out: &mut [u8], px: &[u32], s: [usize; 4], m: usize, n: usize)
    requires { RowsIn (length px.now) m s × AnyScale K × (n ≤ 4096) × (3 * n ≤ length out.old) × (K * n ≤ m + 1) }
    ensures { out.new ≡ map_row (below (3 * n) (λ i _. block_mean K px.now s m (K * (i / 3)) (i % 3))) out.old }
{
    for i in 0..n {
        put(out, 3 * i, inside::<K>(px, s, i));
    }
}

// A row of n cells of K by K: the last may lie over the edge.
fn row<const K: usize>(out: &mut [u8], px: &[u32], s: [usize; 4], m: usize, n: usize)
    requires { RowsIn (length px.now) m s × AnyScale K × (n ≤ 4096) × (length out.old ≡ 3 * n) }
    ensures { out.new ≡ map_row (λ i _. block_mean K px.now s m (K * (i / 3)) (i % 3)) out.old }
{
    let q = ((m + 1) / K).min(n);
    row_inside::<K>(out, px, s, m, q);
    for i in q..n {
        put(out, 3 * i, cell::<K>(px, s, K * i, m));
    }
}

// Where the window's row v begins.
fn row_at(w: usize, area: Area, v: usize) -> usize
    requires { (w ≤ 4096) × (area.x0 ≤ 4096) × (area.y0 < area.y1) × (area.y1 ≤ 4096) }
    ensures { result ≡ row_start w area v }
{
    (area.y0 + v.min(area.y1 - area.y0 - 1)) * w + area.x0
}

fn four_rows(w: usize, area: Area, v: usize) -> [usize; 4]
    requires { (w ≤ 4096) × (area.x0 ≤ 4096) × (area.y0 < area.y1) × (area.y1 ≤ 4096) × (v ≤ 16384) }
    ensures { result ≡ four_rows w area v }
{
    [
        row_at(w, area, v),
        row_at(w, area, v + 1),
        row_at(w, area, v + 2),
        row_at(w, area, v + 3),
    ]
}

// Row y of the picture.
fn shrink_row(out: &mut [u8], px: &[u32], size: Size, area: Area, k: usize, y: usize)
    requires window { Shown (length px.now) size.w size.h area × AnyScale k }
    requires row { (y ≤ 4096) × (length out.old ≡ 3 * Window.cells (columns area) k) }
    ensures { out.new ≡ map_row (λ i _. cell_mean k (columns area) (rows area) (crop size.w area px.now) (i % 3) (i / 3) y) out.old }
{
    let ww = area.x1 - area.x0;
    let s = four_rows(size.w, area, k * y);
    let n = super::cells(ww, k);
    match k {
        1 => row::<1>(out, px, s, ww - 1, n),
        2 => row::<2>(out, px, s, ww - 1, n),
        _ => row::<4>(out, px, s, ww - 1, n),
    }
}

// The window's cells.
fn shrink(out: &mut [u8], px: &[u32], size: Size, area: Area, k: usize)
    requires window { Shown (length px.now) size.w size.h area × AnyScale k }
    requires size { length out.old ≡ 3 * (Window.cells (columns area) k * Window.cells (rows area) k) }
    ensures { out.new ≡ shrunk k (columns area) (rows area) (crop size.w area px.now) }
{
    let n = 3 * super::cells(area.x1 - area.x0, k);
    let rows = super::cells(area.y1 - area.y0, k);
    for y in 0..rows {
        shrink_row(&mut out[y * n..y * n + n], px, size, area, k, y);
    }
}

// The radius of a pass, in cells.
fn radius(s: f32) -> usize
    ensures { result ≡ Picture.radius_of s }
{
    mathf::to_u32(mathf::max(s * 0.95, 1.0)).min(32767) as usize
}

// One pass along the rows and one along the columns, of w by h cells. b is lent for what is between. The
// sides and the radius are in range, so neither is refused.
fn pass(a: &mut [u8], b: &mut [u8], w: usize, h: usize, r: usize)
    requires sides { (1 ≤ w) × (w ≤ 4096) × (1 ≤ h) × (h ≤ 4096) × (r ≤ 32767) }
    requires size { (length a.old ≡ 3 * (w * h)) × (length b.old ≡ 3 * (w * h)) }
    ensures { a.new ≡ Picture.pass w h r a.old }
{
    let _ = boxblur::box_h(a, b, w, h, r);
    let _ = boxblur::box_v(b, a, w, h, r);
}

// The passes that a blur of s cells takes.
fn blur(a: &mut [u8], b: &mut [u8], w: usize, h: usize, s: f32)
    requires sides { (1 ≤ w) × (w ≤ 4096) × (1 ≤ h) × (h ≤ 4096) }
    requires size { (length a.old ≡ 3 * (w * h)) × (length b.old ≡ 3 * (w * h)) }
    ensures { a.new ≡ Picture.blurred w h s a.old }
{
    if s >= 0.45 {
        let r = radius(s);
        pass(a, b, w, h, r);
        pass(a, b, w, h, r);
        if s >= 3.0 {
            pass(a, b, w, h, r);
        }
    }
}

// The saturation in 256ths, held so that nothing below overflows.
fn satq(saturation: f32) -> i32
    ensures { result ≡ Picture.satq saturation }
{
    mathf::to_i32(saturation * 256.0).clamp(-8192, 8192)
}

// The brightness of a cell.
fn lum(r: u8, g: u8, b: u8) -> u8
    ensures { result ≡ Picture.lum r g b }
{
    ((77 * u32::from(r) + 150 * u32::from(g) + 29 * u32::from(b)) / 256) as u8
}

// A 256th, rounded down, also where z is negative.
fn shr8(z: i32) -> i32
    ensures { result ≡ shr_z z 256 }
{
    z >> 8
}

// Channel c of a cell of brightness l, drawn away from it. The bound of sat is asked by the three functions
// that hand it down: a struct of one number would be opened here, the only place that uses the bound.
fn saturated(c: u8, l: u8, sat: i32) -> i32
    requires { nat_abs sat ≤ 8192 }
    ensures { result ≡ Picture.saturated sat l c }
{
    i32::from(l) + shr8((i32::from(c) - i32::from(l)) * sat)
}

// a of 256 parts of the way from v to t.
fn toward(t: u8, a: u8, v: i32) -> i32
    requires { nat_abs v ≤ 4200000 }
    ensures { result ≡ Picture.toward t a v }
{
    v + shr8((i32::from(t) - v) * i32::from(a))
}

// v held to 0 .. 255.
fn byte(v: i32) -> u8
    ensures { result ≡ Picture.byte v }
{
    v.clamp(0, 255) as u8
}

fn tint_ch(sat: i32, t: u8, a: u8, l: u8, c: u8) -> u8
    requires { nat_abs sat ≤ 8192 }
    ensures { result ≡ Picture.tinted_byte sat t a l c }
{
    byte(toward(t, a, saturated(c, l, sat)))
}

// The cell whose bytes begin at o.
fn tint_cell(a: &mut [u8], o: usize, sat: i32, tint: Color)
    requires { (o + 2 < length a.old) × (nat_abs sat ≤ 8192) }
    ensures { a.new ≡ tinted_cell sat tint a.old o }
{
    let r = a[o];
    let g = a[o + 1];
    let b = a[o + 2];
    let l = lum(r, g, b);
    let c = [
        tint_ch(sat, tint.r, tint.a, l, r),
        tint_ch(sat, tint.g, tint.a, l, g),
        tint_ch(sat, tint.b, tint.a, l, b),
    ];
    put(a, o, c);
}

// All cells.
fn tint_cells(a: &mut [u8], saturation: f32, tint: Color)
    requires { length a.old % 3 ≡ 0 }
    ensures { a.new ≡ tinted saturation tint a.old }
{
    let sat = satq(saturation);
    let n = a.len() / 3;
    for i in 0..n {
        tint_cell(a, 3 * i, sat, tint);
    }
}

#[tactic(auto, unfolding(crate::specs::Picture::sigma))]
fn sigma(blur: f32, k: usize) -> f32
    requires { k ≤ 4 }
    ensures { result ≡ Picture.sigma blur k }
{
    blur / k as f32
}

// The picture of a window with a pixel, in slices of just its bytes.
fn draw(
    px: &[u32],
    size: Size,
    rect: Rect,
    style: GlassStyle,
    table: &[f32; 33],
    a: &mut [u8],
    b: &mut [u8],
)
    requires canvas { (length px.now ≡ size.h * size.w) × (size.w ≤ 4096) × (size.h ≤ 4096) }
    requires some { 1 ≤ Window.picture_bytes size.w size.h rect style table.now }
    requires size { (length a.old ≡ Window.picture_bytes size.w size.h rect style table.now) × (length b.old ≡ Window.picture_bytes size.w size.h rect style table.now) }
    ensures { a.new ≡ Picture.picture size.w size.h rect style table.now px.now }
{
    let win = super::window(size, rect, style, table);
    let k = super::scale(style.blur);
    let lw = super::cells(win.x1 - win.x0, k);
    let lh = super::cells(win.y1 - win.y0, k);
    shrink(a, px, size, win, k);
    blur(a, b, lw, lh, sigma(style.blur, k));
    tint_cells(a, style.saturation, style.tint);
}

// The small picture behind a panel, into the first bytes of a: none, by `Window.picture_bytes`, where the
// window has no pixel. Where px is no canvas of this size or a slice is too short, nothing changes; of b
// only its first bytes, as many as the picture's, may.
pub fn picture(
    px: &[u32],
    size: Size,
    rect: Rect,
    style: GlassStyle,
    table: &[f32; 33],
    a: &mut [u8],
    b: &mut [u8],
)
    ensures first { a.new ≡ Picture.pictured size.w size.h rect style table.now px.now a.old (length b.old) }
    ensures second { drop (Picture.used size.w size.h rect style table.now (length px.now) (length a.old) (length b.old)) b.new ≡ drop (Picture.used size.w size.h rect style table.now (length px.now) (length a.old) (length b.old)) b.old }
    ensures kept { (length a.new ≡ length a.old) × (length b.new ≡ length b.old) }
{
    if size.is_canvas(px.len()) {
        let n = super::picture_bytes(size, rect, style, table);
        if n == 0 || a.len() < n || b.len() < n {
            return;
        }
        draw(px, size, rect, style, table, &mut a[..n], &mut b[..n]);
    }
}
