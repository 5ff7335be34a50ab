// The pass along the columns, a block of neighbouring columns at a time: a walk down single columns would
// touch each line of the cache many times. An array that a call returns is bound before a variable takes
// it: the check refuses to assign it at once.
ghost use Rattle.std.specs.Prelude.{◌≡◌, ◌+◌, ◌*◌, ◌≤◌, ◌<◌, [], length, get_or};
ghost use Rattle.boxblur.specs.Box.{box_v};
ghost use Rattle.boxblur.specs.declared.Axis.TheVariants.{Columns};
ghost use Rattle.boxblur.specs.Private.{Block, Split, PutCells, Step, slid, means, new_byte, span, stripe};

use super::BoxPass;

// The sums of a block of columns, from column x on, around row 0. s is lent to be written and goes beside
// the pass and x: a struct of these two with the block's width would leave each function asking that s has
// this width, one clause for another.
fn block_sums(s: &mut [[u32; 3]], pass: BoxPass, x: usize)
    requires { x + length s.old ≤ pass.blur.w }
    ensures { Block pass.entry.src.now pass.entry.blur x (length s.old) 0 s.new }
{
    let blur = pass.blur;
    for i in 0..s.len() {
        s[i] = super::first_scaled(pass.src, (x + i) * 3, blur.w * 3, blur.h, blur.r, blur.inv);
    }
}

// Where the block's cell of row y stands, in its first column x. The product is one of 32 bits: as one of
// 64 the compiler would merge it with a further column's, and not see that the columns stand side by side.
fn block_at(w: usize, x: usize, y: usize) -> usize
    requires { (w ≤ 4096) × ((x ≤ 4096) × (y ≤ 4096)) }
    ensures { (result ≡ (y * w + x) * 3) × (result ≤ 60000000) }
{
    ((y * w + x) as u32 * 3) as usize
}

// The means of c columns' sums, from column i of the block on, stored in row y. Where c is a constant the
// compiler stores sixteen bytes at once.
fn put_cells(dst: &mut [u8], s: &[[u32; 3]], w: usize, x: usize, y: usize, i: usize, c: usize)
    requires { PutCells (length dst.old) s.now w x y i c }
    ensures { dst.new ≡ span (means s.now x) w y (x + i) c dst.old }
{
    let o = block_at(w, x, y);
    for j in i..i + c {
        let t = s[j];
        super::put_cell(dst, o + j * 3, t);
    }
}

// The means of all the block's columns, sixteen at a time.
fn put_row(dst: &mut [u8], s: &[[u32; 3]], w: usize, x: usize, y: usize)
    requires { PutCells (length dst.old) s.now w x y 0 (length s.now) }
    ensures { dst.new ≡ span (means s.now x) w y x (length s.now) dst.old }
{
    let m = s.len() / 16 * 16;
    for i in (0..m).step_by(16) {
        put_cells(dst, s, w, x, y, i, 16);
    }
    put_cells(dst, s, w, x, y, m, s.len() - m);
}

// The step at column j of the block; the row that comes begins at `new`, and the row that leaves at `old`.
fn stepped(s: &[[u32; 3]], src: &[u8], new: usize, old: usize, inv: u32, j: usize) -> [u32; 3]
    requires { Step src.now (get_or s.now j []) (new + j * 3) (old + j * 3) inv × ((j < length s.now) × (j ≤ 4096)) }
    ensures { result ≡ slid src.now (get_or s.now j []) (new + j * 3) (old + j * 3) inv }
{
    let t = s[j];
    super::step(t, src, new + j * 3, old + j * 3, inv)
}

// The step at four columns from column i of the block on. All are read before any is stored: so the
// compiler groups them.
fn step_four(s: &mut [[u32; 3]], pass: BoxPass, x: usize, y: usize, i: usize)
    requires { Split pass.src.now pass.blur x (length s.old) y i s.old × ((y < pass.blur.h) × ((x + length s.old ≤ pass.blur.w) × (i + 4 ≤ length s.old))) }
    ensures { Split pass.entry.src.now pass.entry.blur x (length s.old) y (i + 4) s.new }
{
    let blur = pass.blur;
    let new = block_at(blur.w, x, super::hold(blur.h, blur.r, y, 2 * blur.r + 1));
    let old = block_at(blur.w, x, super::hold(blur.h, blur.r, y, 0));
    let a = stepped(s, pass.src, new, old, blur.inv, i);
    let b = stepped(s, pass.src, new, old, blur.inv, i + 1);
    let c = stepped(s, pass.src, new, old, blur.inv, i + 2);
    let d = stepped(s, pass.src, new, old, blur.inv, i + 3);
    s[i] = a;
    s[i + 1] = b;
    s[i + 2] = c;
    s[i + 3] = d;
}

// The step at the columns from column i of the block on; those before them have gone on to the next row.
fn step_cells(s: &mut [[u32; 3]], pass: BoxPass, x: usize, y: usize, i: usize)
    requires { Split pass.src.now pass.blur x (length s.old) y i s.old × ((y < pass.blur.h) × ((x + length s.old ≤ pass.blur.w) × (i ≤ length s.old))) }
    ensures { Block pass.entry.src.now pass.entry.blur x (length s.old) (y + 1) s.new }
{
    let blur = pass.blur;
    let new = block_at(blur.w, x, super::hold(blur.h, blur.r, y, 2 * blur.r + 1));
    let old = block_at(blur.w, x, super::hold(blur.h, blur.r, y, 0));
    for j in i..s.len() {
        let u = stepped(s, pass.src, new, old, blur.inv, j);
        s[j] = u;
    }
}

// The step at all the block's columns, four at a time.
fn step_row(s: &mut [[u32; 3]], pass: BoxPass, x: usize, y: usize)
    requires { Block pass.src.now pass.blur x (length s.old) y s.old × ((y < pass.blur.h) × (x + length s.old ≤ pass.blur.w)) }
    ensures { Block pass.entry.src.now pass.entry.blur x (length s.old) (y + 1) s.new }
{
    let m = s.len() / 4 * 4;
    for i in (0..m).step_by(4) {
        step_four(s, pass, x, y, i);
    }
    step_cells(s, pass, x, y, m);
}

// Row y of these columns; `s` goes on to the next row.
fn block_row(s: &mut [[u32; 3]], pass: BoxPass, dst: &mut [u8], x: usize, y: usize)
    requires { (length dst.old ≡ length pass.src.now) × (Block pass.src.now pass.blur x (length s.old) y s.old × ((y < pass.blur.h) × (x + length s.old ≤ pass.blur.w))) }
    ensures { Block pass.entry.src.now pass.entry.blur x (length s.old) (y + 1) s.new × (dst.new ≡ span (new_byte Columns pass.entry.src.now pass.entry.blur) pass.entry.blur.w y x (length s.old) dst.old) }
{
    put_row(dst, s, pass.blur.w, x, y);
    step_row(s, pass, x, y);
}

// The block of columns from column x on; `s` is lent for their sums.
fn blur_block(s: &mut [[u32; 3]], pass: BoxPass, dst: &mut [u8], x: usize)
    requires { (length dst.old ≡ length pass.src.now) × (x + length s.old ≤ pass.blur.w) }
    ensures { dst.new ≡ stripe (new_byte Columns pass.entry.src.now pass.entry.blur) pass.entry.blur.w x (length s.old) pass.entry.blur.h dst.old }
{
    block_sums(s, pass, x);
    for y in 0..pass.blur.h {
        block_row(s, pass, dst, x, y);
    }
}

// Every column.
pub(super) fn blur_columns(pass: BoxPass, dst: &mut [u8])
    requires { length dst.old ≡ length pass.src.now }
    ensures { dst.new ≡ box_v pass.entry.blur.w pass.entry.blur.h pass.entry.blur.r pass.entry.src.now }
{
    let w = pass.blur.w;
    let mut line = [[0u32; 3]; 2048];
    for x in (0..w).step_by(2048) {
        let n = (w - x).min(2048);
        blur_block(&mut line[..n], pass, dst, x);
    }
}
