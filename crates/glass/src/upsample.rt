// Rows where a cell is two or four pixels wide: as many pixels at a time lie between the same two columns
// of cells, always at the same places between them. The columns of a part of the row are found first and
// mixed then, and the brightness comes last: each of the three loops is fast, but one loop of all is not.
ghost use Rattle.std.specs.Prelude.{◌≡◌, true, ◌+◌, ◌-◌, ◌*◌, ◌/◌, ◌%◌, ◌≤◌, ◌<◌, length, get_or};
ghost use Rattle.canvas.specs.Rows.{map_row, below as up_to};
ghost use Rattle.glass.specs.General as General;
ghost use Rattle.glass.specs.Private as Private;

use super::general::{Column, Columns};
use super::{Runs, View};

// Row y from column x on, of a flat panel or of the inside of another. `flat` is handed down as a value:
// the check doesn't cover a constant bool in the closure of `find_channels`.
pub(super) fn upsampled_row(dst: &mut [u32], x: usize, y: u16, view: View, flat: bool)
    requires { (x + length dst.old ≤ 4096) × (flat ≡ true → (2 ≤ view.p.lw) × (2 ≤ view.p.lh)) }
    ensures { dst.new ≡ map_row (λ i q. Private.row_pix view.entry.p view.entry.lo.now flat (x + i) y) dst.old }
{
    match super::runs_in(view, x, dst.len()) {
        Some(s) => run_row(dst, x, y, s, view, flat),
        None => each(dst, x, y, view, flat),
    }
}

// The pixels before the first run, the runs, and those after them.
fn run_row(dst: &mut [u32], x: usize, y: u16, s: Runs, view: View, flat: bool)
    requires row { (x + length dst.old ≤ 4096) × (flat ≡ true → (2 ≤ view.p.lw) × (2 ≤ view.p.lh)) }
    requires runs_fit { Private.Fit view.p x (length dst.old) s }
    ensures { dst.new ≡ map_row (λ i q. Private.row_pix view.entry.p view.entry.lo.now flat (x + i) y) dst.old }
{
    let n = dst.len();
    let lead = s.lead;
    let to = lead + s.count * view.p.k;
    let fy = super::row_place(view, y);
    each(&mut dst[..lead], x, y, view, flat);
    parts(&mut dst[lead..to], s.count, s.m, fy, view, flat);
    each(&mut dst[to..n], x + to, y, view, flat);
}

// The row pixel by pixel.
fn each(dst: &mut [u32], x: usize, y: u16, view: View, flat: bool)
    requires { (x + length dst.old ≤ 4096) × (flat ≡ true → (2 ≤ view.p.lw) × (2 ≤ view.p.lh)) }
    ensures { dst.new ≡ map_row (λ i q. Private.row_pix view.entry.p view.entry.lo.now flat (x + i) y) dst.old }
{
    if flat {
        super::mixed_row(dst, x, y, view);
    } else {
        super::general::soft_row(dst, x, y, view);
    }
}

// A run for each two columns of cells from column m on, at the place fy of the rows, in parts that a line
// has room for.
fn parts(dst: &mut [u32], count: usize, m: usize, fy: usize, view: View, flat: bool)
    requires { (fy < view.p.lh * 256) × (length dst.old ≡ count * view.p.k) × (m + count < view.p.lw) × (Private.Even view.p.k) }
    ensures { dst.new ≡ map_row (λ i q. Private.run_pix view.entry.p view.entry.lo.now flat fy m i) dst.old }
{
    for at in (0..count).step_by(128) {
        let end = canvas::strip_end(at, count, 128);
        let from = at * view.p.k;
        let to = end * view.p.k;
        part(&mut dst[from..to], end - at, m + at, fy, view, flat);
    }
}

// One of these parts, of n runs, at most as many as a line has room for. n goes beside dst and the line:
// worked out of a length it would be a quotient by k or by 3. The line goes whole and `find_channels` alone
// cuts it: so the clauses name places of one line.
fn part(dst: &mut [u32], n: usize, m: usize, fy: usize, view: View, flat: bool)
    requires { (fy < view.p.lh * 256) × (length dst.old ≡ n * view.p.k) × (m + n < view.p.lw) × (Private.Even view.p.k) × (n ≤ 128) }
    ensures { dst.new ≡ map_row (λ i q. Private.run_pix view.entry.p view.entry.lo.now flat fy m i) dst.old }
{
    let mut line = [0u32; 387];
    find_columns(&mut line, n + 1, m, fy, view, flat);
    mix_runs(dst, n, view.p.k, &line);
    super::lit_clear(dst, view.p);
}

// The columns.

// The first n columns from column m on. Their channels lie side by side, as the picture's bytes do, so that
// one loop finds them all.
fn find_columns(line: &mut [u32], n: usize, m: usize, fy: usize, view: View, flat: bool)
    requires { (fy < view.p.lh * 256) × (m + n ≤ view.p.lw) × (n * 3 ≤ length line.old) × (1 ≤ n) }
    ensures { Private.IsLine view.entry.lo.now view.entry.p.lw view.entry.p.lh flat fy m n line.new }
{
    let above = (fy / 256 * view.p.lw + m) * 3;
    let below = (super::general::next(view.p.lh, fy) * view.p.lw + m) * 3;
    find_channels(line, n * 3, view.lo, above, below, (fy % 256) as u32, flat);
}

// The first n channels of two rows of cells, t of 256 parts of the way from the one above to the one
// below. The remainders say how small the weights are, so that the two products are one instruction.
#[tactic(auto, using(canvas::proofs::Laws::Spans::lent_front))]
fn find_channels(
    line: &mut [u32],
    n: usize,
    lo: &[u8],
    above: usize,
    below: usize,
    t: u32,
    flat: bool,
)
    requires { (n ≤ length line.old) × (above + n ≤ length lo.now) × (below + n ≤ length lo.now) × (t ≤ 256) }
    ensures { line.new ≡ map_row (up_to n (λ j q. Private.levels flat (General.blend t (get_or lo.now (above + j) 0) (get_or lo.now (below + j) 0)))) line.old }
{
    let u = (256 - t) % 512;
    let v = t % 512;
    canvas::map_pixels(&mut line[..n], |j, _| {
        channel(lo[above + j], lo[below + j], u, v, flat)
    });
}

fn channel(a: u8, b: u8, u: u32, v: u32, flat: bool) -> u32
    requires { (v ≤ 256) × (u ≡ 256 - v) }
    ensures { result ≡ Private.levels flat (General.blend v a b) }
{
    let n = u32::from(a) * u + u32::from(b) * v;
    if flat { n / 256 * 256 } else { n }
}

// The runs, n of them, k pixels each.

fn mix_runs(dst: &mut [u32], n: usize, k: usize, line: &[u32])
    requires lengths { (length dst.old ≡ n * k) × (n ≤ 128) × ((n + 1) * 3 ≤ length line.now) × (Private.Even k) }
    requires line_low { Private.Low line.now ((n + 1) * 3) }
    ensures { dst.new ≡ map_row (λ i q. Private.line_run k line.now i) dst.old }
{
    if k == 4 {
        mix_run::<4>(dst, n, line);
    } else {
        mix_run::<2>(dst, n, line);
    }
}

// The same for K, a constant: the compiler then unrolls the inner loop and multiplies by constants.
fn mix_run<const K: usize>(dst: &mut [u32], n: usize, line: &[u32])
    requires lengths { (length dst.old ≡ n * K) × (n ≤ 128) × ((n + 1) * 3 ≤ length line.now) × (Private.Even K) }
    requires line_low { Private.Low line.now ((n + 1) * 3) }
    ensures { dst.new ≡ map_row (λ i q. Private.line_run K line.now i) dst.old }
{
    for i in 0..n {
        let e = ends_at(line, i * 3);
        for j in 0..K {
            let b = ((2 * j + 1) * (4 / K)) as u32;
            dst[i * K + j] = mixed(e, 8 - b, b);
        }
    }
}

// The column whose channels begin at j, and the next.
fn ends_at(line: &[u32], j: usize) -> Columns
    requires { j + 6 ≤ length line.now }
    ensures { result ≡ record { left = record { r = get_or line.now j 0; g = get_or line.now (j + 1) 0; b = get_or line.now (j + 2) 0 }; right = record { r = get_or line.now (j + 3) 0; g = get_or line.now (j + 4) 0; b = get_or line.now (j + 5) 0 } } }
{
    let left = Column {
        r: line[j],
        g: line[j + 1],
        b: line[j + 2],
    };
    let right = Column {
        r: line[j + 3],
        g: line[j + 4],
        b: line[j + 5],
    };
    Columns { left, right }
}

// a of 8 parts of the left column and b of the right one, which are constants in a run; `general::between`
// takes any place. Three channels that are words make the pixel here: a `Color` takes bytes, to which they
// would be cut first.

#[tactic(auto, unfolding(crate::specs::Private::between))]
fn mixed(e: Columns, a: u32, b: u32) -> u32
    requires { (a + b ≡ 8) × (Private.Small e.left) × (Private.Small e.right) }
    ensures { result ≡ Private.between e (b * 32) }
{
    mixed_ch(e.left.r, e.right.r, a, b) * 65536
        + mixed_ch(e.left.g, e.right.g, a, b) * 256
        + mixed_ch(e.left.b, e.right.b, a, b)
}

fn mixed_ch(l: u32, r: u32, a: u32, b: u32) -> u32
    requires { (a + b ≡ 8) × (l ≤ 65280) × (r ≤ 65280) }
    ensures { (result ≡ General.blend (b * 32) l r / 65536) × (result ≤ 255) }
{
    (l * a + r * b) / 2048
}
