// The pass along the rows. Where a row's window passes neither end, nothing is held to the row. An array
// that a call returns is bound before it is kept: the check refuses to store it at once.
ghost use Rattle.std.specs.Prelude.{◌≡◌, ◌+◌, ◌-◌, ◌*◌, ◌%◌, ◌≤◌, ◌<◌, length};
ghost use Rattle.boxblur.specs.Box.{box_h};
ghost use Rattle.boxblur.specs.declared.Axis.TheVariants.{Rows};
ghost use Rattle.boxblur.specs.Private.{sums_at, new_byte, span};

use super::BoxPass;

// The cells `from` to `to` of row y; the result is the sums around cell `to`.
fn edge_cells(
    s: [u32; 3],
    pass: BoxPass,
    dst: &mut [u8],
    y: usize,
    from: usize,
    to: usize,
) -> [u32; 3]
    requires { (length dst.old ≡ length pass.src.now) × ((s ≡ sums_at Rows pass.src.now pass.blur from y) × ((y < pass.blur.h) × ((from ≤ to) × (to ≤ pass.blur.w)))) }
    ensures { (result ≡ sums_at Rows pass.entry.src.now pass.entry.blur to y) × (dst.new ≡ span (new_byte Rows pass.entry.src.now pass.entry.blur) pass.entry.blur.w y from (to - from) dst.old) }
{
    let blur = pass.blur;
    let mut t = s;
    for x in from..to {
        let o = super::offset(blur.w, x, y);
        let new = super::offset(blur.w, super::hold(blur.w, blur.r, x, 2 * blur.r + 1), y);
        let old = super::offset(blur.w, super::hold(blur.w, blur.r, x, 0), y);
        let u = super::turn(t, pass.src, dst, o, new, old, blur.inv);
        t = u;
    }
    t
}

// Cell x of row y, whose window passes no end of the row; the result is the sums around the next cell.
fn inner_cell(s: [u32; 3], pass: BoxPass, dst: &mut [u8], y: usize, x: usize) -> [u32; 3]
    requires { (length dst.old ≡ length pass.src.now) × ((s ≡ sums_at Rows pass.src.now pass.blur x y) × ((y < pass.blur.h) × ((pass.blur.r ≤ x) × (x + 1 + pass.blur.r < pass.blur.w)))) }
    ensures { (result ≡ sums_at Rows pass.entry.src.now pass.entry.blur (x + 1) y) × (dst.new ≡ span (new_byte Rows pass.entry.src.now pass.entry.blur) pass.entry.blur.w y x 1 dst.old) }
{
    let blur = pass.blur;
    let reach = blur.r * 3;
    let o = super::offset(blur.w, x, y);
    super::turn(s, pass.src, dst, o, o + reach + 3, o - reach, blur.inv)
}

// Four such cells.
fn four_cells(s: [u32; 3], pass: BoxPass, dst: &mut [u8], y: usize, x: usize) -> [u32; 3]
    requires { (length dst.old ≡ length pass.src.now) × ((s ≡ sums_at Rows pass.src.now pass.blur x y) × ((y < pass.blur.h) × ((pass.blur.r ≤ x) × (x + 4 + pass.blur.r < pass.blur.w)))) }
    ensures { (result ≡ sums_at Rows pass.entry.src.now pass.entry.blur (x + 4) y) × (dst.new ≡ span (new_byte Rows pass.entry.src.now pass.entry.blur) pass.entry.blur.w y x 4 dst.old) }
{
    let t = inner_cell(s, pass, dst, y, x);
    let u = inner_cell(t, pass, dst, y, x + 1);
    let v = inner_cell(u, pass, dst, y, x + 2);
    inner_cell(v, pass, dst, y, x + 3)
}

// The cells `from` to `to` where no window passes an end of the row, four a turn: fewer instructions a
// cell than one by one.
fn inner_cells(
    s: [u32; 3],
    pass: BoxPass,
    dst: &mut [u8],
    y: usize,
    from: usize,
    to: usize,
) -> [u32; 3]
    requires { (length dst.old ≡ length pass.src.now) × ((s ≡ sums_at Rows pass.src.now pass.blur from y) × ((y < pass.blur.h) × ((from ≤ to) × ((pass.blur.r ≤ from) × ((to + pass.blur.r < pass.blur.w) × ((to - from) % 4 ≡ 0)))))) }
    ensures { (result ≡ sums_at Rows pass.entry.src.now pass.entry.blur to y) × (dst.new ≡ span (new_byte Rows pass.entry.src.now pass.entry.blur) pass.entry.blur.w y from (to - from) dst.old) }
{
    let mut t = s;
    for x in (from..to).step_by(4) {
        let u = four_cells(t, pass, dst, y, x);
        t = u;
    }
    t
}

// Row y: the left end, the inner cells, the right end.
fn blur_row(pass: BoxPass, dst: &mut [u8], y: usize)
    requires { (length dst.old ≡ length pass.src.now) × (y < pass.blur.h) }
    ensures { dst.new ≡ span (new_byte Rows pass.entry.src.now pass.entry.blur) pass.entry.blur.w y 0 pass.entry.blur.w dst.old }
{
    let blur = pass.blur;
    let s = super::first_scaled(
        pass.src,
        super::offset(blur.w, 0, y),
        3,
        blur.w,
        blur.r,
        blur.inv,
    );
    if 2 * blur.r + 1 < blur.w {
        let to = blur.r + (blur.w - 2 * blur.r - 1) / 4 * 4;
        let t = edge_cells(s, pass, dst, y, 0, blur.r);
        let u = inner_cells(t, pass, dst, y, blur.r, to);
        edge_cells(u, pass, dst, y, to, blur.w);
    } else {
        edge_cells(s, pass, dst, y, 0, blur.w);
    }
}

// Every row.
pub(super) fn blur_rows(pass: BoxPass, dst: &mut [u8])
    requires { length dst.old ≡ length pass.src.now }
    ensures { dst.new ≡ box_h pass.entry.blur.w pass.entry.blur.h pass.entry.blur.r pass.entry.src.now }
{
    let blur = pass.blur;
    for y in 0..blur.h {
        blur_row(pass, dst, y);
    }
}
