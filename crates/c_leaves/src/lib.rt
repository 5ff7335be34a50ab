// The leaf functions for Rust to call, each with the contract of the function behind it. A struct
// goes in as its numbers; a colour comes out as a word, a rectangle as the field that is asked for. C
// knows these names and numbers, so any number may come in as a place.
#![tactic(auto)]

ghost use Rattle.std.specs.Prelude.{◌≡◌, pos, length, get_or};
ghost use Rattle.std.specs.Float.Ieee as Ieee;
ghost use Rattle.std.specs.Float.{binary32};
ghost use Rattle.mathf.specs.Real as Real;
ghost use Rattle.mathf.specs.Round.{floor_of, ceil_of};
ghost use Rattle.mathf.specs.Sqrt.{sqrt_of};
ghost use Rattle.geom.specs.Geom as Geom;
ghost use Rattle.color.specs.Color.{mix as mixColor};
ghost use Rattle.color.specs.Color.{pack, from_pix, mix_pix, blend_pix, blend_c, dim_pix};
ghost use Rattle.canvas.specs.Rows.{map_row, below, copied};
ghost use Rattle.c_leaves.specs.Out.{word, pick, rect_field, irect_field};

use color::Color;
use geom::{IRect, Rect};

// A colour as a word: its alpha, then red, green, blue.
#[tactic(auto, unfolding(crate::specs::Out::word))]
fn word_of(c: Color) -> u32
    ensures { result ≡ word c }
{
    u32::from_be_bytes([c.a, c.r, c.g, c.b])
}

// One of four by its place: the last for every place from 3 on.
fn pick<T: Copy>(place: u32, a: T, b: T, c: T, d: T) -> T
    ensures { result ≡ pick place a b c d }
{
    match place {
        0 => a,
        1 => b,
        2 => c,
        _ => d,
    }
}

// The field of a rectangle by its place.
#[tactic(auto, unfolding(crate::specs::Out::rect_field))]
fn rect_field(r: Rect, place: u32) -> f32
    ensures { result ≡ rect_field place r }
{
    pick(place, r.x, r.y, r.w, r.h)
}

#[tactic(auto, unfolding(crate::specs::Out::irect_field))]
fn irect_field(r: IRect, place: u32) -> i32
    ensures { result ≡ irect_field place r }
{
    pick(place, r.x0, r.y0, r.x1, r.y1)
}

#[unsafe(no_mangle)]
pub extern "C" fn leaf_floor(x: f32) -> f32
    ensures { result ≡ floor_of x }
{
    mathf::floor(x)
}

#[unsafe(no_mangle)]
pub extern "C" fn leaf_ceil(x: f32) -> f32
    ensures { result ≡ ceil_of x }
{
    mathf::ceil(x)
}

#[unsafe(no_mangle)]
pub extern "C" fn leaf_sqrt(x: f32) -> f32
    ensures { result ≡ sqrt_of x }
{
    mathf::sqrt(x)
}

#[unsafe(no_mangle)]
pub extern "C" fn leaf_to_i32(x: f32) -> i32
    ensures { result ≡ Ieee.to_signed 31 x }
{
    mathf::to_i32(x)
}

#[unsafe(no_mangle)]
pub extern "C" fn leaf_to_u32(x: f32) -> u32
    ensures { result ≡ Ieee.to_unsigned 32 x }
{
    mathf::to_u32(x)
}

#[unsafe(no_mangle)]
pub extern "C" fn leaf_to_u8(x: f32) -> u8
    ensures { result ≡ Ieee.to_unsigned 8 x }
{
    mathf::to_u8(x)
}

#[unsafe(no_mangle)]
pub extern "C" fn leaf_of_i32(n: i32) -> f32
    ensures { result ≡ Ieee.of_int binary32 n }
{
    mathf::of_i32(n)
}

#[unsafe(no_mangle)]
pub extern "C" fn leaf_of_u32(n: u32) -> f32
    ensures { result ≡ Ieee.of_int binary32 (pos n) }
{
    mathf::of_u32(n)
}

#[unsafe(no_mangle)]
pub extern "C" fn leaf_fabs(x: f32) -> f32
    ensures { result ≡ Real.fabs x }
{
    mathf::fabs(x)
}

#[unsafe(no_mangle)]
pub extern "C" fn leaf_min(a: f32, b: f32) -> f32
    ensures { result ≡ Real.min a b }
{
    mathf::min(a, b)
}

#[unsafe(no_mangle)]
pub extern "C" fn leaf_max(a: f32, b: f32) -> f32
    ensures { result ≡ Real.max a b }
{
    mathf::max(a, b)
}

#[unsafe(no_mangle)]
pub extern "C" fn leaf_clamp(x: f32, lo: f32, hi: f32) -> f32
    ensures { result ≡ Real.clamp x lo hi }
{
    mathf::clamp(x, lo, hi)
}

#[unsafe(no_mangle)]
pub extern "C" fn leaf_saturate(x: f32) -> f32
    ensures { result ≡ Real.saturate x }
{
    mathf::saturate(x)
}

#[unsafe(no_mangle)]
pub extern "C" fn leaf_lerp(a: f32, b: f32, t: f32) -> f32
    ensures { result ≡ Real.lerp a b t }
{
    mathf::lerp(a, b, t)
}

#[unsafe(no_mangle)]
pub extern "C" fn leaf_mix_pix(a: u32, b: u32, t256: u32) -> u32
    ensures { result ≡ mix_pix a b t256 }
{
    color::mix_pix(a, b, t256)
}

#[unsafe(no_mangle)]
pub extern "C" fn leaf_blend(dst: u32, r: u8, g: u8, b: u8, a: u32) -> u32
    ensures { result ≡ blend_pix dst r g b a }
{
    color::blend(dst, r, g, b, a)
}

#[unsafe(no_mangle)]
pub extern "C" fn leaf_blend_c(dst: u32, r: u8, g: u8, b: u8, a: u8, cov: u32) -> u32
    ensures { result ≡ blend_c dst (record { r = r; g = g; b = b; a = a }) cov }
{
    color::blend_c(dst, Color { r, g, b, a }, cov)
}

#[unsafe(no_mangle)]
pub extern "C" fn leaf_dim_pix(p: u32, dim: u32) -> u32
    ensures { result ≡ dim_pix p dim }
{
    color::dim_pix(p, dim)
}

#[unsafe(no_mangle)]
pub extern "C" fn leaf_pix(r: u8, g: u8, b: u8, a: u8) -> u32
    ensures { result ≡ pack r g b }
{
    Color { r, g, b, a }.pix()
}

// The colour of a pixel, as a word.
#[unsafe(no_mangle)]
pub extern "C" fn leaf_from_pix(p: u32) -> u32
    ensures { result ≡ word (from_pix p) }
{
    word_of(Color::from_pix(p))
}

#[unsafe(no_mangle)]
pub extern "C" fn leaf_color_mix(
    r0: u8,
    g0: u8,
    b0: u8,
    a0: u8,
    r1: u8,
    g1: u8,
    b1: u8,
    a1: u8,
    t: f32,
) -> u32
    ensures { result ≡ word (mixColor (record { r = r0; g = g0; b = b0; a = a0 }) (record { r = r1; g = g1; b = b1; a = a1 }) t) }
{
    word_of(Color {
        r: r0,
        g: g0,
        b: b0,
        a: a0,
    }
    .mix(
        Color {
            r: r1,
            g: g1,
            b: b1,
            a: a1,
        },
        t,
    ))
}

#[unsafe(no_mangle)]
pub extern "C" fn leaf_rect_right(x: f32, y: f32, w: f32, h: f32) -> f32
    ensures { result ≡ Geom.right (record { x = x; y = y; w = w; h = h }) }
{
    Rect { x, y, w, h }.right()
}

#[unsafe(no_mangle)]
pub extern "C" fn leaf_rect_bottom(x: f32, y: f32, w: f32, h: f32) -> f32
    ensures { result ≡ Geom.bottom (record { x = x; y = y; w = w; h = h }) }
{
    Rect { x, y, w, h }.bottom()
}

#[unsafe(no_mangle)]
pub extern "C" fn leaf_rect_cx(x: f32, y: f32, w: f32, h: f32) -> f32
    ensures { result ≡ Geom.cx (record { x = x; y = y; w = w; h = h }) }
{
    Rect { x, y, w, h }.cx()
}

#[unsafe(no_mangle)]
pub extern "C" fn leaf_rect_cy(x: f32, y: f32, w: f32, h: f32) -> f32
    ensures { result ≡ Geom.cy (record { x = x; y = y; w = w; h = h }) }
{
    Rect { x, y, w, h }.cy()
}

#[unsafe(no_mangle)]
pub extern "C" fn leaf_rect_inset(x: f32, y: f32, w: f32, h: f32, d: f32, which: u32) -> f32
    ensures { result ≡ rect_field which (Geom.inset (record { x = x; y = y; w = w; h = h }) d) }
{
    rect_field(Rect { x, y, w, h }.inset(d), which)
}

#[unsafe(no_mangle)]
pub extern "C" fn leaf_rect_outer_pixels(x: f32, y: f32, w: f32, h: f32, which: u32) -> i32
    ensures { result ≡ irect_field which (Geom.outer_pixels (record { x = x; y = y; w = w; h = h })) }
{
    irect_field(Rect { x, y, w, h }.outer_pixels(), which)
}

#[unsafe(no_mangle)]
pub extern "C" fn leaf_irect_intersect(
    x0: i32,
    y0: i32,
    x1: i32,
    y1: i32,
    ox0: i32,
    oy0: i32,
    ox1: i32,
    oy1: i32,
    which: u32,
) -> i32
    ensures { result ≡ irect_field which (Geom.intersect (record { x0 = x0; y0 = y0; x1 = x1; y1 = y1 }) (record { x0 = ox0; y0 = oy0; x1 = ox1; y1 = oy1 })) }
{
    irect_field(
        IRect { x0, y0, x1, y1 }.intersect(IRect {
            x0: ox0,
            y0: oy0,
            x1: ox1,
            y1: oy1,
        }),
        which,
    )
}

#[unsafe(no_mangle)]
pub extern "C" fn leaf_irect_is_empty(x0: i32, y0: i32, x1: i32, y1: i32) -> bool
    ensures { result ≡ Geom.is_empty (record { x0 = x0; y0 = y0; x1 = x1; y1 = y1 }) }
{
    IRect { x0, y0, x1, y1 }.is_empty()
}

#[unsafe(no_mangle)]
pub extern "C" fn leaf_irect_w(x0: i32, y0: i32, x1: i32, y1: i32) -> i64
    ensures { result ≡ Geom.width (record { x0 = x0; y0 = y0; x1 = x1; y1 = y1 }) }
{
    IRect { x0, y0, x1, y1 }.w()
}

#[unsafe(no_mangle)]
pub extern "C" fn leaf_irect_h(x0: i32, y0: i32, x1: i32, y1: i32) -> i64
    ensures { result ≡ Geom.height (record { x0 = x0; y0 = y0; x1 = x1; y1 = y1 }) }
{
    IRect { x0, y0, x1, y1 }.h()
}

// Rows, each lent by the caller.
#[unsafe(no_mangle)]
pub extern "C" fn leaf_row_fill(dst: &mut [u32], v: u32)
    ensures { dst.new ≡ map_row (λ i p. v) dst.old }
{
    canvas::row_fill(dst, v);
}

#[unsafe(no_mangle)]
pub extern "C" fn leaf_row_copy(dst: &mut [u32], src: &[u32])
    ensures { dst.new ≡ map_row (below (length src.now) (λ i p. copied (get_or src.now i 0))) dst.old }
{
    canvas::row_copy(dst, src);
}

#[unsafe(no_mangle)]
pub extern "C" fn leaf_row_blend(dst: &mut [u32], r: u8, g: u8, b: u8, a: u32)
    ensures { dst.new ≡ map_row (λ i p. blend_pix p r g b a) dst.old }
{
    canvas::row_blend(dst, r, g, b, a);
}

#[unsafe(no_mangle)]
pub extern "C" fn leaf_row_mix(dst: &mut [u32], src: &[u32], t256: u32)
    ensures { dst.new ≡ map_row (below (length src.now) (λ i p. mix_pix p (get_or src.now i 0) t256)) dst.old }
{
    canvas::row_mix(dst, src, t256);
}
