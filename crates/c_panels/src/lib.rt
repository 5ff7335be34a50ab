// The secure frame and the glass panel for C and Rust to call, each with the contract of the function behind
// it. A window, a rectangle and a style go in as their numbers, and a truth value as a word, since C's
// signatures have them so. The box passes are in `tiglostrema`.
#![tactic(auto)]

ghost use Rattle.std.specs.Prelude.{◌≡◌, not, eqb, length};
ghost use Rattle.canvas.specs.Canvas.{painted_on};
ghost use Rattle.frame.specs.Frame.{frame_rule};
ghost use Rattle.glass.specs.Glass.{glassed_in, scratch_used, Kept, picture_in};

use backdrop::GlassStyle;
use canvas::Size;
use color::Color;
use frame::GlassSurface;
use geom::{IRect, Rect};
use glass::Pane;

#[unsafe(no_mangle)]
pub extern "C" fn panel_frame(
    px: &mut [u32],
    w: usize,
    h: usize,
    x: u32,
    y: u32,
    width: u32,
    height: u32,
    border: u32,
    tag: u8,
    tint: u32,
    xray: u32,
)
    ensures { px.new ≡ painted_on w h (frame_rule w h (record { x = x; y = y; width = width; height = height; border_thickness = border }) tag (not (eqb tint 0)) (not (eqb xray 0))) px.old }
{
    let window = GlassSurface {
        x,
        y,
        width,
        height,
        border_thickness: border,
    };
    window.composite_secure_frame(px, Size { w, h }, tag, tint != 0, xray != 0);
}

#[unsafe(no_mangle)]
pub extern "C" fn panel_glass(
    px: &mut [u32],
    w: usize,
    h: usize,
    x0: i32,
    y0: i32,
    x1: i32,
    y1: i32,
    x: f32,
    y: f32,
    rw: f32,
    rh: f32,
    radius: f32,
    blur: f32,
    red: u8,
    green: u8,
    blue: u8,
    alpha: u8,
    saturation: f32,
    brightness: f32,
    bezel: f32,
    spec: f32,
    table: &[f32; 33],
    a: &mut [u8],
    b: &mut [u8],
)
    ensures canvas { px.new ≡ glassed_in w h (record { x0 = x0; y0 = y0; x1 = x1; y1 = y1 }) (record { x = x; y = y; w = rw; h = rh }) (record { radius = radius; blur = blur; tint = record { r = red; g = green; b = blue; a = alpha }; saturation = saturation; brightness = brightness; bezel = bezel; spec = spec }) table.now (length a.old) (length b.old) px.old }
    ensures first { a.new ≡ picture_in w h (record { x0 = x0; y0 = y0; x1 = x1; y1 = y1 }) (record { x = x; y = y; w = rw; h = rh }) (record { radius = radius; blur = blur; tint = record { r = red; g = green; b = blue; a = alpha }; saturation = saturation; brightness = brightness; bezel = bezel; spec = spec }) table.now px.old a.old (length b.old) }
    ensures second { Kept (scratch_used w h (record { x0 = x0; y0 = y0; x1 = x1; y1 = y1 }) (record { x = x; y = y; w = rw; h = rh }) (record { radius = radius; blur = blur; tint = record { r = red; g = green; b = blue; a = alpha }; saturation = saturation; brightness = brightness; bezel = bezel; spec = spec }) table.now (length px.old) (length a.old) (length b.old)) b.old b.new }
{
    let style = GlassStyle {
        radius,
        blur,
        tint: Color {
            r: red,
            g: green,
            b: blue,
            a: alpha,
        },
        saturation,
        brightness,
        bezel,
        spec,
    };
    let rect = Rect { x, y, w: rw, h: rh };
    let pane = Pane { rect, style };
    let size = Size { w, h };
    glass::glass(px, size, IRect { x0, y0, x1, y1 }, pane, table, a, b);
}
