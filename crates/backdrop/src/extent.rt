// The part of the canvas that a panel shows blurred, and the scratch that this takes.
ghost use Rattle.std.specs.Prelude.{◌≡◌, ◌≤◌, max, min, ◌||◌, ◌+ℤ◌, ◌-ℤ◌};
ghost use Rattle.std.specs.Float.Ieee.{lt};
ghost use Rattle.mathf.specs.Real as Real;
ghost use Rattle.geom.specs.Geom.{two};
ghost use Rattle.geom.proofs.Laws.{box, low, clip};
ghost use Rattle.backdrop.specs.Window as Window;

use super::GlassStyle;
use canvas::{Area, Size};
use geom::{IRect, Rect};

// A cell of the small picture stands for k × k pixels. A number and no kind: sides are divided by it, and
// `Window.scale_of` names it so.
#[tactic(auto, unfolding(crate::specs::Window::scale_of))]
pub fn scale(blur: f32) -> usize
    ensures { result ≡ Window.scale_of blur }
{
    if blur < 2.5 {
        return 1;
    }
    if blur < 9.0 {
        return 2;
    }
    4
}

// The window's sides on a canvas of this size, all 0 where it has no pixel: `Window.area_of` says so, and
// no Option.
pub fn window(size: Size, rect: Rect, style: GlassStyle, table: &[f32; 33]) -> Area
    ensures { result ≡ Window.window_area size.w size.h rect style table.now }
{
    let m = margin(style, table);
    let full = rect.outer_pixels();
    let x0 = near(full.x0, m);
    let y0 = near(full.y0, m);
    let x1 = far(full.x1, m, size.w);
    let y1 = far(full.y1, m, size.h);
    cut(x0, y0, x1, y1)
}

// How long each scratch slice has to be for a panel: 0, by `Window.need_of`, where nothing is painted.
pub fn need(size: Size, clip: IRect, rect: Rect, style: GlassStyle, table: &[f32; 33]) -> usize
    ensures { result ≡ Window.need_of size.w size.h clip rect style table.now }
{
    if size.w > 4096 || size.h > 4096 || too_small(rect) {
        return 0;
    }
    let b = size.area_on(size.w * size.h, clip, rect.outer_pixels());
    if b.is_empty() {
        return 0;
    }
    super::picture_bytes(size, rect, style, table)
}

// A panel that is less than two pixels wide or high is not painted.
pub fn too_small(rect: Rect) -> bool
    ensures { result ≡ lt rect.w two || lt rect.h two }
{
    rect.w < 2.0 || rect.h < 2.0
}

// By how many pixels the window is larger than the panel, on each side.
#[tactic(auto, unfolding(crate::specs::Window::margin))]
fn margin(style: GlassStyle, table: &[f32; 33]) -> i32
    ensures { result ≡ Window.margin style table.now }
{
    mathf::to_i32(mathf::ceil(style.blur * 2.0 + reach(style, table) + 3.0))
}

// How far the bezel may bend the view.
#[tactic(auto, unfolding(crate::specs::Window::reach))]
fn reach(style: GlassStyle, table: &[f32; 33]) -> f32
    ensures { result ≡ Window.reach style table.now }
{
    if mathf::max(style.bezel, 0.0) > 0.5 {
        return largest(table);
    }
    0.0
}

// The table's largest entry, at least 0.
fn largest(table: &[f32; 33]) -> f32
    ensures { result ≡ Window.largest table.now 33 }
{
    table.iter().fold(0.0, |m, v| mathf::max(m, *v))
}

// The side v moved out by m, to the left or up, and held to the canvas. Any two i32 differ by an i64. Two
// functions of a line: -m may be no i32.
fn near(v: i32, m: i32) -> usize
    ensures { result ≡ low (v -ℤ m) }
{
    (i64::from(v) - i64::from(m)).max(0) as usize
}

// The same to the right or down, on a canvas that ends at n.
fn far(v: i32, m: i32, n: usize) -> usize
    ensures { result ≡ clip (v +ℤ m) n }
{
    ((i64::from(v) + i64::from(m)).max(0) as usize).min(n)
}

// The sides of a window; where a far side is not past its near side there is none.
fn cut(x0: usize, y0: usize, x1: usize, y1: usize) -> Area
    ensures { result ≡ Window.area_of (box x0 y0 (max x1 x0) (max y1 y0)) }
{
    if x1 <= x0 || y1 <= y0 {
        return Area::default();
    }
    Area { x0, y0, x1, y1 }
}
