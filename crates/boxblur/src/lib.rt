// The box pass along rows and along columns: the sums of a window's three channels travel from cell to
// cell. They travel scaled, sum × inv + 32768, so that a rounded mean is a shift.
#![tactic(auto)]

mod columns;
mod rows;

ghost use Rattle.std.specs.Prelude.{◌≡◌, ℕ, [], ◌∷◌, ◌+◌, ◌-◌, ◌*◌, ◌/◌, ◌≤◌, ◌<◌, length, get_or};
ghost use Rattle.answer.specs.Answer.{returned};
ghost use Rattle.boxblur.specs.Box.{held};
ghost use Rattle.boxblur.specs.Private.{Fits, sums, scaled_sums, InLine, Small, Step, slid, put_means, pass_along};
ghost use Rattle.boxblur.specs.Refuse.{suitable, passed, after, after_h, after_v};

use answer::{Answer, Cause};

// Which way a pass goes. An enum and no closure: the two passes walk in different ways, and the clauses
// of both speak of the axis.
#[derive(Clone, Copy)]
enum Axis {
    Rows,
    Columns,
}

// The numbers of a pass over w by h cells with the radius r; `inv` is 65536 / (2 r + 1).
#[derive(Clone, Copy)]
struct Blur {
    w: usize,
    h: usize,
    r: usize,
    inv: u32,
}

// A pass: the cells that it reads, and its numbers, which suit them. A cell is three bytes side by side,
// as C lends them. `bytes` keeps what is known of a byte. That a row y is below h is asked by each function
// of a row: it is another row in each call.
#[derive(Clone, Copy)]
struct BoxPass<'a> {
    // What is written goes beside a pass, with its length: a pass is copied, and what is lent to be written
    // can't be.
    src: &'a [u8],
    blur: Blur,
    ghost fits: { Fits blur (length src.now) },
    ghost bytes: { (i : ℕ) → get_or src.now i 0 < 256 },
}

// The pass along the rows, or cause 14, which leaves `dst` as it was. C has a function for each axis.
pub fn box_h(src: &[u8], dst: &mut [u8], w: usize, h: usize, r: usize) -> Answer
    ensures { (returned result ≡ returned (passed src.now dst.old w h r)) × (dst.new ≡ after_h src.now dst.old w h r) }
{
    pass_along(Axis::Rows, src, dst, w, h, r)
}

// The pass along the columns, or cause 14.
pub fn box_v(src: &[u8], dst: &mut [u8], w: usize, h: usize, r: usize) -> Answer
    ensures { (returned result ≡ returned (passed src.now dst.old w h r)) × (dst.new ≡ after_v src.now dst.old w h r) }
{
    pass_along(Axis::Columns, src, dst, w, h, r)
}

fn pass_along(axis: Axis, src: &[u8], dst: &mut [u8], w: usize, h: usize, r: usize) -> Answer
    ensures { (returned result ≡ returned (passed src.now dst.old w h r)) × (dst.new ≡ after (pass_along axis w h r src.now) src.now dst.old w h r) }
{
    if !suits(src.len(), dst.len(), w, h, r) {
        return Err(Cause::Pass.at(0));
    }
    let blur = blur_of(w, h, r);
    let pass = BoxPass { src, blur };
    match axis {
        Axis::Rows => rows::blur_rows(pass, dst),
        Axis::Columns => columns::blur_columns(pass, dst),
    }
    Ok(0)
}

// Do slices of a and b bytes, a size and a radius suit each other?
#[tactic(auto, unfolding(crate::specs::Refuse::suitable))]
fn suits(a: usize, b: usize, w: usize, h: usize, r: usize) -> bool
    ensures { result ≡ suitable a b w h r }
{
    if r > 32767 {
        return false;
    }
    (1..=4096).contains(&w) && (1..=4096).contains(&h) && a == 3 * (w * h) && b == 3 * (w * h)
}

// The pass of these numbers.
fn blur_of(w: usize, h: usize, r: usize) -> Blur
    requires { 2 * r + 1 ≤ 65536 }
    ensures { (result.w ≡ w) × ((result.h ≡ h) × ((result.r ≡ r) × (result.inv ≡ 65536 / (2 * r + 1)))) }
{
    Blur {
        w,
        h,
        r,
        inv: 65536 / ((2 * r + 1) as u32),
    }
}

// Where the cell in column x of row y stands.
fn offset(w: usize, x: usize, y: usize) -> usize
    requires { (w ≤ 4096) × ((x ≤ 4096) × (y ≤ 4096)) }
    ensures { (result ≡ (y * w + x) * 3) × (result ≤ 60000000) }
{
    (y * w + x) * 3
}

// Place x + j - r, held to the line of m cells.
fn hold(m: usize, r: usize, x: usize, j: usize) -> usize
    requires { (1 ≤ m) × ((x ≤ 4096) × (j ≤ 65536)) }
    ensures { (result ≡ held m r x j) × (result < m) }
{
    (x + j).saturating_sub(r).min(m - 1)
}

// The channel sums with the cell at `o` added.
fn add_cell(s: [u32; 3], src: &[u8], o: usize) -> [u32; 3]
    requires { (o + 3 ≤ length src.now) × ((get_or s 0 0 ≤ 16777216) × ((get_or s 1 0 ≤ 16777216) × (get_or s 2 0 ≤ 16777216))) }
    ensures { result ≡ (get_or s 0 0 + get_or src.now o 0) ∷ (get_or s 1 0 + get_or src.now (o + 1) 0) ∷ (get_or s 2 0 + get_or src.now (o + 2) 0) ∷ [] }
{
    [
        s[0] + u32::from(src[o]),
        s[1] + u32::from(src[o + 1]),
        s[2] + u32::from(src[o + 2]),
    ]
}

// A scaled sum gone on to the next window: the byte a comes in and the byte b leaves.
fn moved(t: u32, a: u8, b: u8, inv: u32) -> u32
    requires { (inv ≤ 65536) × ((t < 16777216) × (b * inv ≤ t)) }
    ensures { result ≡ t + a * inv - b * inv }
{
    t + u32::from(a) * inv - u32::from(b) * inv
}

// The step from one window to the next: the cell at `a` comes in and the cell at `b` leaves.
fn step(s: [u32; 3], src: &[u8], a: usize, b: usize, inv: u32) -> [u32; 3]
    requires { Step src.now s a b inv }
    ensures { result ≡ slid src.now s a b inv }
{
    [
        moved(s[0], src[a], src[b], inv),
        moved(s[1], src[a + 1], src[b + 1], inv),
        moved(s[2], src[a + 2], src[b + 2], inv),
    ]
}

// The rounded mean of a scaled sum.
fn mean(t: u32) -> u8
    requires { t < 16777216 }
    ensures { result ≡ t / 65536 }
{
    (t >> 16) as u8
}

// Three rounded means stored from `o` on, each by itself, as `put_means` says: an array of them that is
// copied into a part of dst is no plainer.
fn put_cell(dst: &mut [u8], o: usize, s: [u32; 3])
    requires { (o + 3 ≤ length dst.old) × Small s }
    ensures { dst.new ≡ put_means dst.old s o }
{
    dst[o] = mean(s[0]);
    dst[o + 1] = mean(s[1]);
    dst[o + 2] = mean(s[2]);
}

// One turn of a pass: the means of the sums are stored at `o`, and the sums go on to the next window. They
// do so first: what is read need not wait for what is stored.
fn turn(
    s: [u32; 3],
    src: &[u8],
    dst: &mut [u8],
    o: usize,
    new: usize,
    old: usize,
    inv: u32,
) -> [u32; 3]
    requires { (o + 3 ≤ length dst.old) × Step src.now s new old inv }
    ensures { (result ≡ slid src.now s new old inv) × (dst.new ≡ put_means dst.old s o) }
{
    let t = step(s, src, new, old, inv);
    put_cell(dst, o, s);
    t
}

// k times the cell at `o`.
fn times_cell(src: &[u8], o: usize, k: u32) -> [u32; 3]
    requires { (o + 3 ≤ length src.now) × (k ≤ 65536) }
    ensures { result ≡ (get_or src.now o 0 * k) ∷ (get_or src.now (o + 1) 0 * k) ∷ (get_or src.now (o + 2) 0 * k) ∷ [] }
{
    [
        u32::from(src[o]) * k,
        u32::from(src[o + 1]) * k,
        u32::from(src[o + 2]) * k,
    ]
}

// The sums of the window around the line's first cell, which holds the first cell r + 1 times. An array
// that a call returns is bound before it is kept: the check refuses to store it at once.
fn first_sums(src: &[u8], start: usize, stride: usize, m: usize, r: usize) -> [u32; 3]
    requires { InLine (length src.now) start stride m r }
    ensures { result ≡ sums src.now start stride m r 0 }
{
    let n = 2 * r + 1;
    let mut s = times_cell(src, start, (r + 1) as u32);
    for j in r + 1..n {
        let t = add_cell(s, src, start + hold(m, r, 0, j) * stride);
        s = t;
    }
    s
}

// A sum, scaled; `inv` is 65536 / (2 r + 1).
fn scale(sum: u32, inv: u32) -> u32
    requires { sum * inv ≤ 16711680 }
    ensures { result ≡ sum * inv + 32768 }
{
    sum * inv + 32768
}

// The first sums, scaled.
fn first_scaled(src: &[u8], start: usize, stride: usize, m: usize, r: usize, inv: u32) -> [u32; 3]
    requires { InLine (length src.now) start stride m r × (inv ≡ 65536 / (2 * r + 1)) }
    ensures { result ≡ scaled_sums src.now start stride m r 0 }
{
    let s = first_sums(src, start, stride, m, r);
    [scale(s[0], inv), scale(s[1], inv), scale(s[2], inv)]
}
