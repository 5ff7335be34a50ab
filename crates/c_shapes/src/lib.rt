// The painters of shapes for C (by `c_shapes_c`) and Rust to call, each with the contract of the
// painter behind it. A canvas and a rectangle go in as their numbers, a colour as a word, a paint as
// its kind with two colours and four numbers: names, numbers and flags are C's. Of a crate the
// toolchain makes a library or an archive, so the exports are a crate of their own.
#![tactic(auto)]

ghost use Rattle.std.specs.Prelude.{◌≡◌, not, eqb};
ghost use Rattle.canvas.specs.Canvas.{painted_on};
ghost use Rattle.fill.specs.Fill.{fill_rule};
ghost use Rattle.stroke.specs.Stroke.{stroke_rule};
ghost use Rattle.shadow.specs.Shadow.{shadow_rule};
ghost use Rattle.c_shapes.specs.In.{color_of, paint_of};

use canvas::Size;
use color::Color;
use fill::Paint;
use geom::{IRect, Rect};
use shadow::Shadow;

// A colour from its word: alpha in the top byte, then red, green, blue.
#[tactic(auto, unfolding(crate::specs::In::color_of))]
pub fn color_of(word: u32) -> Color
    ensures { result ≡ color_of word }
{
    let [a, r, g, b] = word.to_be_bytes();
    Color { r, g, b, a }
}

// A paint from its number, two colours and four numbers.
#[tactic(auto, unfolding(crate::specs::In::paint_of))]
pub fn paint_of(kind: u32, c0: u32, c1: u32, n0: f32, n1: f32, n2: f32, n3: f32) -> Paint
    ensures { result ≡ paint_of kind c0 c1 n0 n1 n2 n3 }
{
    Paint::of_number(kind, color_of(c0), color_of(c1), n0, n1, n2, n3)
}

pub fn shape_fill(
    px: &mut [u32],
    w: usize,
    h: usize,
    x0: i32,
    y0: i32,
    x1: i32,
    y1: i32,
    x: f32,
    y: f32,
    rw: f32,
    rh: f32,
    r: f32,
    kind: u32,
    c0: u32,
    c1: u32,
    n0: f32,
    n1: f32,
    n2: f32,
    n3: f32,
)
    ensures { px.new ≡ painted_on w h (fill_rule w h (record { x0 = x0; y0 = y0; x1 = x1; y1 = y1 }) (record { x = x; y = y; w = rw; h = rh }) r (paint_of kind c0 c1 n0 n1 n2 n3)) px.old }
{
    fill::fill_rrect(
        px,
        Size { w, h },
        IRect { x0, y0, x1, y1 },
        Rect { x, y, w: rw, h: rh },
        r,
        paint_of(kind, c0, c1, n0, n1, n2, n3),
    );
}

pub fn shape_stroke(
    px: &mut [u32],
    w: usize,
    h: usize,
    x0: i32,
    y0: i32,
    x1: i32,
    y1: i32,
    x: f32,
    y: f32,
    rw: f32,
    rh: f32,
    r: f32,
    width: f32,
    color: u32,
)
    ensures { px.new ≡ painted_on w h (stroke_rule w h (record { x0 = x0; y0 = y0; x1 = x1; y1 = y1 }) (record { x = x; y = y; w = rw; h = rh }) r width (color_of color)) px.old }
{
    stroke::stroke_rrect(
        px,
        Size { w, h },
        IRect { x0, y0, x1, y1 },
        Rect { x, y, w: rw, h: rh },
        r,
        width,
        color_of(color),
    );
}

// `skip` is `skip_inside`: 0 is false.
pub fn shape_shadow(
    px: &mut [u32],
    w: usize,
    h: usize,
    x0: i32,
    y0: i32,
    x1: i32,
    y1: i32,
    x: f32,
    y: f32,
    rw: f32,
    rh: f32,
    r: f32,
    blur: f32,
    color: u32,
    skip: u32,
)
    ensures { px.new ≡ painted_on w h (shadow_rule w h (record { x0 = x0; y0 = y0; x1 = x1; y1 = y1 }) (record { x = x; y = y; w = rw; h = rh }) (record { r = r; blur = blur; color = color_of color; skip_inside = not (eqb skip 0) })) px.old }
{
    shadow::shadow_rrect(
        px,
        Size { w, h },
        IRect { x0, y0, x1, y1 },
        Rect { x, y, w: rw, h: rh },
        Shadow {
            r,
            blur,
            color: color_of(color),
            skip_inside: skip != 0,
        },
    );
}
