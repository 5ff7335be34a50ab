// A source stretched over a rectangle, under a mask with rounded corners.
#![tactic(auto)]

ghost use Rattle.std.specs.Prelude.{◌≡◌, ℕ, Bool, true, false, ◌+◌, ◌-◌, ◌*◌, ◌%◌, ◌≤◌, ◌<◌, min, [], length, get_or};
ghost use Rattle.color.specs.Color.{mix_pix};
ghost use Rattle.canvas.specs.Rows.{map_row};
ghost use Rattle.canvas.specs.Canvas.{painted, painted_on, boxed, area_box};
ghost use Rattle.sources.specs.Source.{is_source};
ghost use Rattle.edge.specs.Edge.{natural};
ghost use Rattle.scaled.specs.Scaled as Scaled;
ghost use Rattle.scaled.specs.Private as Private;

use canvas::{Area, Size};
use edge::Middle;
use geom::{IRect, Rect};
use sources::Sides;

// A copy's own numbers: the rectangle that it covers, its corner radius, and its alpha, from 0 to 1.
#[derive(Clone, Copy)]
pub struct Stretch {
    pub dest: Rect,
    pub r: f32,
    pub alpha: f32,
}

// What is worked out once for a copy: its rectangle, the radius held to it, and how much of 256 it
// covers.
#[derive(Clone, Copy)]
struct Mask {
    dest: Rect,
    r: f32,
    alpha: u32,
}

// A source whose pixels are as many as its sides say.
#[derive(Clone, Copy)]
struct Image<'a> {
    px: &'a [u32],
    sides: Sides,
    ghost whole: { is_source sides (length px.now) ≡ true },
}

impl<'a> Image<'a> {
    // Its row n.
    fn row(self, n: usize) -> &'a [u32]
        requires { n < self.sides.h }
        ensures { Private.LentRow self.entry.px.now self.entry.sides n result.now }
    {
        let from = sources::row_start(self.sides, n);
        &self.px[from..from + self.sides.w]
    }
}

// The colours of one of the source's rows, at the places of a strip's columns. The memory is fixed, for as
// many columns as a strip may have: of the array a strip's own part is used.
#[derive(Drop)]
struct Line {
    row: usize,
    colours: [u32; 2048],
}

// No row's yet. A constant, since of a line that is made by a call or by its fields a copy would stand on
// the stack beside it through all rows.
const NO_LINE: Line = Line {
    row: 0,
    colours: [0; 2048],
};

impl Line {
    // Makes it the line of this row.
    fn take(&mut self, image: Image, row: usize, taps: &[u32])
        requires sized { (row < image.sides.h) × (length taps.now ≤ 2048) }
        requires places { Private.Within taps.now (Private.places image.sides.w) }
        ensures { (self.new.row ≡ row) × Private.Coloured image.entry.px.now image.entry.sides row taps.now self.new.colours }
    {
        fill_row(&mut self.colours[..taps.len()], image.row(row), taps);
        self.row = row;
    }

    // The same, unless it is already.
    fn keep(&mut self, image: Image, row: usize, taps: &[u32])
        requires sized { (row < image.sides.h) × (length taps.now ≤ 2048) }
        requires places { Private.Within taps.now (Private.places image.sides.w) }
        requires before { Private.Coloured image.px.now image.sides self.old.row taps.now self.old.colours }
        ensures { (self.new.row ≡ row) × Private.Coloured image.entry.px.now image.entry.sides row taps.now self.new.colours }
    {
        if self.row != row {
            self.take(image, row, taps);
        }
    }
}

// Two rows of the source at a strip's columns, mixed t of 256 parts of the way from `above` to `below`.
#[derive(Clone, Copy)]
struct Mix<'a> {
    above: &'a [u32],
    below: &'a [u32],
    t: u32,
    ghost alike: { length above.now ≡ length below.now },
}

impl<'a> Mix<'a> {
    // The even row and the odd one about the place f: above is the one that it lies in.
    fn of(f: u32, even: &'a [u32], odd: &'a [u32]) -> Mix<'a>
        requires { length even.now ≡ length odd.now }
        ensures long { length result.above.now ≡ length even.now }
        ensures colours { (i : ℕ) → Private.mixed result.above.now result.below.now result.t i ≡ Private.between f (get_or even.now i 0) (get_or odd.now i 0) }
    {
        let t = f % 256;
        if first(f) % 2 == 0 {
            Mix {
                above: even,
                below: odd,
                t,
            }
        } else {
            Mix {
                above: odd,
                below: even,
                t,
            }
        }
    }

    // The colour in the column i.
    fn at(self, i: usize) -> u32
        requires { i < length self.above.now }
        ensures { result ≡ Private.mixed self.entry.above.now self.entry.below.now self.entry.t i }
    {
        color::mix_pix(self.above[i], self.below[i], self.t)
    }
}

// The source src, stretched.
pub fn blit_scaled(
    px: &mut [u32],
    size: Size,
    clip: IRect,
    src: &[u32],
    sides: Sides,
    stretch: Stretch,
)
    ensures { px.new ≡ painted_on size.w size.h (Scaled.scaled_rule size.w size.h clip src.now sides stretch) px.old }
{
    if sources::is_source(sides, src.len()) && !no_copy(stretch) {
        let dest = stretch.dest;
        let area = size.area_on(px.len(), clip, dest.outer_pixels());
        if !area.is_empty() {
            scaled_strips(px, size, area, Image { px: src, sides }, mask_of(stretch));
        }
    }
}

#[tactic(auto, unfolding(crate::specs::Scaled::no_copy))]
fn no_copy(stretch: Stretch) -> bool
    ensures { result ≡ Scaled.no_copy stretch }
{
    let dest = stretch.dest;
    dest.w < 1.0 || dest.h < 1.0 || stretch.alpha <= 0.0
}

// Alpha in 256ths, a whole number: `genie::full_of` makes a float of the same number again, and one
// function for both would be public for a line.
#[tactic(auto, unfolding(crate::specs::Scaled::mask_of))]
fn mask_of(stretch: Stretch) -> Mask
    ensures { result ≡ Scaled.mask_of stretch }
{
    let dest = stretch.dest;
    let r = edge::copy_radius(dest, stretch.r);
    let alpha = mathf::to_u32(mathf::saturate(stretch.alpha) * 256.0);
    Mask { dest, r, alpha }
}

// The area in strips of its columns, from left to right: a strip's colours are few enough to be kept.
fn scaled_strips(px: &mut [u32], size: Size, area: Area, image: Image, k: Mask)
    requires canvas { (length px.old ≡ size.h * size.w) × (size.w ≤ 4096) × (size.h ≤ 4096) }
    requires inside { (area.x0 ≤ area.x1) × (area.x1 ≤ size.w) × (area.y0 ≤ area.y1) × (area.y1 ≤ size.h) }
    ensures { px.new ≡ painted size.w (boxed (area_box area) (Scaled.stretched_pix image.entry.px.now image.entry.sides k)) px.old }
{
    for x0 in (area.x0..area.x1).step_by(2048) {
        let x1 = canvas::strip_end(x0, area.x1, 2048);
        scaled_rows(px, size, Area { x0, x1, ..area }, image, k);
    }
}

// The rows of a strip. A canvas row lies between two neighbouring rows of the source, one with an even
// number and one with an odd one: `even` and `odd` hold the colours of the last that were used, since
// the next row often lies between the same two. So the rows are walked here: `canvas::paint_rows` takes
// what changes nothing but the row.
fn scaled_rows(px: &mut [u32], size: Size, area: Area, image: Image, k: Mask)
    requires canvas { (length px.old ≡ size.h * size.w) × (size.w ≤ 4096) × (size.h ≤ 4096) }
    requires inside { (area.x0 ≤ area.x1) × (area.x1 ≤ size.w) × (area.y0 ≤ area.y1) × (area.y1 ≤ size.h) × (area.x1 ≤ area.x0 + 2048) }
    ensures { px.new ≡ painted size.w (boxed (area_box area) (Scaled.stretched_pix image.entry.px.now image.entry.sides k)) px.old }
{
    let sides = image.sides;
    let n = area.x1 - area.x0;
    let mut taps = [0u32; 2048];
    find_taps(&mut taps[..n], area.x0, k.dest, sides.w);
    let taps = &taps[..n];
    let mid = clear_of(n, |i| partial(k, (area.x0 + i) as u16));
    let mut even = NO_LINE;
    let mut odd = NO_LINE;
    even.take(image, 0, taps);
    odd.take(image, 0, taps);
    for y in area.y0..area.y1 {
        let from = y * size.w + area.x0;
        let to = y * size.w + area.x1;
        let f = tap(k.dest.y, k.dest.h, sides.h, y as u16);
        even.keep(image, row_of(f, sides.h, 0), taps);
        odd.keep(image, row_of(f, sides.h, 1), taps);
        let mix = Mix::of(f, &even.colours[..n], &odd.colours[..n]);
        scaled_row(&mut px[from..to], area.x0, y as u16, mid, mix, k);
    }
}

// The places in the source. They ask one word of its width or height, that it is 1 or more: a type for
// that would be made anew for either. That places lie in a row is asked wherever it is read at them: a type
// for that would hold the row too, and be made anew for each row and each span.

// The places under the columns from x on.
fn find_taps(taps: &mut [u32], x: usize, dest: Rect, sw: usize)
    requires { (x + length taps.old ≤ 4096) × (1 ≤ sw) × (sw ≤ 4096) }
    ensures { taps.new ≡ map_row (λ i p. Scaled.tap dest.x dest.w sw (x + i)) taps.old }
{
    canvas::map_pixels(taps, |i, _| tap(dest.x, dest.w, sw, (x + i) as u16));
}

#[tactic(auto, unfolding(crate::specs::Scaled::tap))]
fn tap(from: f32, size: f32, n: usize, v: u16) -> u32
    requires { (1 ≤ n) × (n ≤ 4096) }
    ensures { result ≡ Scaled.tap from size n v }
{
    let scale: f32 = mathf::of_u32(n as u32) / size;
    held(
        mathf::to_i32(((edge::centre(v) - from) * scale - 0.5) * 256.0),
        last_place(n),
    )
}

fn held(v: i32, most: u32) -> u32
    ensures { result ≡ min (natural v) most }
{
    (v.max(0) as u32).min(most)
}

fn last_place(n: usize) -> u32
    requires { (1 ≤ n) × (n ≤ 4096) }
    ensures { result ≡ (n - 1) * 256 - 1 }
{
    ((n - 1) * 256).saturating_sub(1) as u32
}

fn first(f: u32) -> usize
    ensures { result ≡ Scaled.first f }
{
    (f / 256) as usize
}

fn next(f: u32, n: usize) -> usize
    requires { 1 ≤ n }
    ensures { result ≡ Scaled.next n f }
{
    (first(f) + 1).min(n - 1)
}

// Of the two rows about the place f, the even one for the parity 0 and the odd one for 1: a number,
// since a remainder is compared with it.
#[tactic(auto, unfolding(crate::specs::Private::row_of))]
fn row_of(f: u32, n: usize, parity: usize) -> usize
    requires { 1 ≤ n }
    ensures { result ≡ Private.row_of n parity f }
{
    if first(f) % 2 == parity {
        first(f)
    } else {
        next(f, n)
    }
}

// Of n columns, those between the first that is not as `near` says and the next that is.
fn clear_of<F: Fn(usize) -> bool>(n: usize, near: F) -> Middle
    requires call { (i : ℕ) → i < n → F.pre near i }
    ensures order { (result.from ≤ result.to) × (result.to ≤ n) }
    ensures clear { (rule : ℕ → Bool) → ((i : ℕ) (b : Bool) → i < n → F.post near i b → b ≡ rule i) → Private.Clear rule n result }
{
    let from = (0..n)
        .find(
            |i|
                requires { F.pre near i.now }
            { !near(*i) },
        )
        .unwrap_or(n);
    let to = (from..n)
        .find(
            |i|
                requires { F.pre near i.now }
            { near(*i) },
        )
        .unwrap_or(n);
    Middle { from, to }
}

// The colours of a row at the places. A row of one pixel has no next one, but all others have one at
// every place. Where the places go by two pixels, those of neighbours are next to each other in the row.
fn fill_row(line: &mut [u32], row: &[u32], taps: &[u32])
    requires sized { (length line.old ≡ length taps.now) × (length taps.now ≤ 2048) × (1 ≤ length row.now) × (length row.now ≤ 4096) }
    requires within { Private.Within taps.now (Private.places (length row.now)) }
    ensures { line.new ≡ map_row (λ i p. Private.row_at row.now (get_or taps.now i 0)) line.old }
{
    if row.len() == 1 {
        canvas::row_fill(line, color::mix_pix(row[0], row[0], 0));
    } else if goes_by_two(taps) {
        halve(line, row, taps[0]);
    } else {
        fill_spans(line, row, taps);
    }
}

// Each place is two pixels after the one before, as it is for a source of twice the copy's width. The
// second place is looked at first.
fn goes_by_two(taps: &[u32]) -> bool
    requires { (length taps.now ≤ 2048) × (Private.Within taps.now 1048576) }
    ensures { result ≡ true → (1 ≤ length taps.now) × Private.ByTwo taps.now (length taps.now) }
{
    taps.len() >= 2 && taps[1] == taps[0] + 512 && !any_stray(taps)
}

// Goes on after a place that strayed: the compiler then takes several places at a time.
fn any_stray(taps: &[u32]) -> bool
    requires { (1 ≤ length taps.now) × (length taps.now ≤ 2048) × (Private.Within taps.now 1048576) }
    ensures { result ≡ false → Private.ByTwo taps.now (length taps.now) }
{
    let mut stray = false;
    let mut want = taps[0];
    for t in taps {
        if *t != want {
            stray = true;
        }
        want += 512;
    }
    stray
}

// The row at places that go by two pixels from f on: four columns are mixed at once as they are read.
fn halve(line: &mut [u32], row: &[u32], f: u32)
    requires { Scaled.first f + length line.old * 2 ≤ length row.now }
    ensures { line.new ≡ map_row (λ i p. mix_pix (get_or row.now (Scaled.first f + i * 2) 0) (get_or row.now (Scaled.first f + i * 2 + 1) 0) (f % 256)) line.old }
{
    let a = first(f);
    canvas::map_pixels(
        line,
        |i, _| color::mix_pix(row[a + i * 2], row[a + i * 2 + 1], f % 256),
    );
}

// In spans of at most 64 columns. A span's pixels are fetched first and mixed then: four are mixed at
// once, but not while they are fetched. The spans are taken by index, since no clause
// says what a slice holds whose chunks were lent and written.
fn fill_spans(line: &mut [u32], row: &[u32], taps: &[u32])
    requires sized { (length line.old ≡ length taps.now) × (length taps.now ≤ 2048) × (2 ≤ length row.now) }
    requires within { Private.Within taps.now (Private.places (length row.now)) }
    ensures { line.new ≡ map_row (λ i p. Private.row_at row.now (get_or taps.now i 0)) line.old }
{
    let n = taps.len();
    let mut pairs = [[0u32; 2]; 64];
    for at in (0..n).step_by(64) {
        let end = canvas::strip_end(at, n, 64);
        fetch(&mut pairs, row, &taps[at..end]);
        mix_line(&mut line[at..end], &pairs, &taps[at..end]);
    }
}

// The row's pixels at the places of the columns, each with the one next to it: the two are taken and
// stored as one.
fn fetch(pairs: &mut [[u32; 2]; 64], row: &[u32], taps: &[u32])
    requires sized { (length taps.now ≤ 64) × (2 ≤ length row.now) }
    requires within { Private.Within taps.now (Private.places (length row.now)) }
    ensures { Private.Paired row.now taps.now pairs.new }
{
    for (i, t) in taps.iter().enumerate() {
        let a = first(*t);
        pairs[i] = [row[a], row[a + 1]];
    }
}

// The two pixels of each pair, mixed by the column's place.
fn mix_line(line: &mut [u32], pairs: &[[u32; 2]; 64], taps: &[u32])
    requires { (length line.old ≤ 64) × (length taps.now ≡ length line.old) }
    ensures { line.new ≡ map_row (λ i p. Private.of_pair (get_or pairs.now i []) (get_or taps.now i 0)) line.old }
{
    canvas::map_pixels(
        line,
        |i, _| color::mix_pix(pairs[i][0], pairs[i][1], taps[i] % 256),
    );
}

// The rows of the canvas. A row's pixels go with its column, its number and its colours beside them: a value
// of them all would be made anew for each span.

// Row y from column x on. No edge is near the columns of mid.
fn scaled_row(dst: &mut [u32], x: usize, y: u16, mid: Middle, mix: Mix, k: Mask)
    requires room { (x + length dst.old ≤ 4096) × (length dst.old ≤ length mix.above.now) }
    requires clear { Private.Clear (λ i. Private.partial k (x + i)) (length dst.old) mid }
    ensures { dst.new ≡ map_row (Private.row_rule k x y (Private.mixed mix.entry.above.now mix.entry.below.now mix.entry.t)) dst.old }
{
    if row_full(k, y) {
        cut_row(dst, x, y, mid, mix, k.alpha, k);
    } else if row_near(k, y) {
        near_row(dst, x, y, mix, k);
    } else {
        row_edge(dst, 0, x, y, mix, k);
    }
}

// A row that is near an edge itself: it is covered alike between the columns to which another edge is
// nearer.
fn near_row(dst: &mut [u32], x: usize, y: u16, mix: Mix, k: Mask)
    requires room { (x + length dst.old ≤ 4096) × (length dst.old ≤ length mix.above.now) }
    requires near_edge { Scaled.row_near k y ≡ true }
    ensures { dst.new ≡ map_row (Private.row_rule k x y (Private.mixed mix.entry.above.now mix.entry.below.now mix.entry.t)) dst.old }
{
    let q = edge::row_axis(k.dest, k.r, y);
    let sd = q - k.r;
    if sd > 0.5 {
        row_edge(dst, 0, x, y, mix, k);
    } else {
        let mid = clear_of(dst.len(), |i| beside(k, q, (x + i) as u16));
        cut_row(dst, x, y, mid, mix, covered(k.alpha, sd), k);
    }
}

// A row whose columns of mid are covered alike, cov of 256.
fn cut_row(dst: &mut [u32], x: usize, y: u16, mid: Middle, mix: Mix, cov: u32, k: Mask)
    requires room { (x + length dst.old ≤ 4096) × (length dst.old ≤ length mix.above.now) }
    requires alike { Private.Alike k cov x y (length dst.old) mid }
    ensures { dst.new ≡ map_row (Private.row_rule k x y (Private.mixed mix.entry.above.now mix.entry.below.now mix.entry.t)) dst.old }
{
    row_edge(&mut dst[..mid.from], 0, x, y, mix, k);
    row_inner(&mut dst[mid.from..mid.to], mid.from, mix, cov);
    row_edge(&mut dst[mid.to..], mid.to, x, y, mix, k);
}

// The pixels from the index at on, each by its place.
fn row_edge(dst: &mut [u32], at: usize, x: usize, y: u16, mix: Mix, k: Mask)
    requires { (x + (at + length dst.old) ≤ 4096) × (at + length dst.old ≤ length mix.above.now) }
    ensures { dst.new ≡ map_row (λ i p. Private.row_rule k x y (Private.mixed mix.entry.above.now mix.entry.below.now mix.entry.t) (at + i) p) dst.old }
{
    let q = edge::row_axis(k.dest, k.r, y);
    canvas::map_pixels(
        dst,
        |i, p| scaled_pix(p, mix.at(at + i), (x + (at + i)) as u16, y, q, k),
    );
}

// Those that are covered alike.
fn row_inner(dst: &mut [u32], at: usize, mix: Mix, cov: u32)
    requires { at + length dst.old ≤ length mix.above.now }
    ensures { dst.new ≡ map_row (λ i p. Scaled.laid cov (Private.mixed mix.entry.above.now mix.entry.below.now mix.entry.t (at + i)) p) dst.old }
{
    canvas::map_pixels(dst, |i, p| laid(cov, mix.at(at + i), p));
}

// In a row that lies q beyond the straight part of its side, column x is nearer to another edge than to
// the row's own.
#[tactic(auto, unfolding(crate::specs::Private::beside))]
fn beside(k: Mask, q: f32, x: u16) -> bool
    ensures { result ≡ Private.beside k q x }
{
    let p = edge::col_axis(k.dest, k.r, x);
    p > q || p > 0.0 && q > 0.0
}

fn row_full(k: Mask, y: u16) -> bool
    ensures { result ≡ Private.row_full k y }
{
    let q = edge::row_axis(k.dest, k.r, y);
    !(q > 0.0) && full(k, q)
}

fn partial(k: Mask, x: u16) -> bool
    ensures { result ≡ Private.partial k x }
{
    !full(k, edge::col_axis(k.dest, k.r, x))
}

// What lies q beyond the straight part of its side is covered in full, if that side is the nearest.
#[tactic(auto, unfolding(crate::specs::Private::full))]
fn full(k: Mask, q: f32) -> bool
    ensures { result ≡ Private.full k q }
{
    let sd = q - k.r;
    !(sd > 0.5) && covered(k.alpha, sd) == k.alpha
}

// The pixel p with the source's colour s over it, in row y, which lies q beyond the straight part of its
// side.
#[tactic(auto, using(crate::proofs::Rows::masked_pix_lem), unfolding(crate::specs::Scaled::scaled_pix))]
fn scaled_pix(p: u32, s: u32, x: u16, y: u16, q: f32, k: Mask) -> u32
    requires { q ≡ Private.row_axis k y }
    ensures { result ≡ Scaled.scaled_pix k s x y p }
{
    if row_near(k, y) || col_near(k, x) {
        return masked_pix(p, s, x, q, k);
    }
    laid(k.alpha, s, p)
}

// A line each for rows and columns, which lie between other sides.
fn row_near(k: Mask, y: u16) -> bool
    ensures { result ≡ Scaled.row_near k y }
{
    let dest = k.dest;
    near(y, dest.y, dest.bottom(), k.r)
}

fn col_near(k: Mask, x: u16) -> bool
    ensures { result ≡ Scaled.col_near k x }
{
    let dest = k.dest;
    near(x, dest.x, dest.right(), k.r)
}

// The centre of the column or row v lies near an edge, at `low` or at `high`.
#[tactic(auto, unfolding(crate::specs::Scaled::near))]
fn near(v: u16, low: f32, high: f32, r: f32) -> bool
    ensures { result ≡ Scaled.near v low high r }
{
    let c = edge::centre(v);
    let band: f32 = r + 1.5;
    c - low < band || high - c < band
}

#[tactic(auto, unfolding(crate::specs::Private::masked_by))]
fn masked_pix(p: u32, s: u32, x: u16, q: f32, k: Mask) -> u32
    ensures { result ≡ Private.masked_by k q s x p }
{
    let sd = edge::corner_sd(edge::col_axis(k.dest, k.r, x), q, k.r);
    if sd > 0.5 {
        return p;
    }
    laid(covered(k.alpha, sd), s, p)
}

// How much of 256 is covered at the distance sd from the edge.
fn covered(alpha: u32, sd: f32) -> u32
    ensures { result ≡ Private.covered alpha sd }
{
    mathf::to_u32(mathf::saturate(0.5 - sd) * mathf::of_u32(alpha))
}

// s at cov of 256 over p. A panel's rim counts its cover by 255, so it has a mix of its own.
#[tactic(auto, unfolding(crate::specs::Scaled::laid))]
fn laid(cov: u32, s: u32, p: u32) -> u32
    ensures { result ≡ Scaled.laid cov s p }
{
    if cov >= 256 {
        return s;
    }
    color::mix_pix(p, s, cov)
}
