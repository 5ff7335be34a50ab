// The copies for C and Rust to call, each by a source as one value and with the contract of the copy
// behind it. C passes plain numbers: so a canvas goes in as its width and height, a rectangle as its
// numbers, a source as its pixels and sides, and so does what the copy takes beside the source.
#![tactic(auto)]

ghost use Rattle.std.specs.Prelude.{◌≡◌};
ghost use Rattle.canvas.specs.Canvas.{painted_on};
ghost use Rattle.straight.specs.Straight.{straight_rule};
ghost use Rattle.scaled.specs.Scaled.{scaled_rule};
ghost use Rattle.genie.specs.Genie.{genied};

use canvas::Size;
use genie::Flight;
use geom::{IRect, Pt, Rect};
use scaled::Stretch;
use straight::Blit;

#[tactic(auto, using(std::proofs::lemmas::Int::ints))]
#[unsafe(no_mangle)]
pub extern "C" fn copy_rounded_dim(
    px: &mut [u32],
    w: usize,
    h: usize,
    x0: i32,
    y0: i32,
    x1: i32,
    y1: i32,
    src: &[u32],
    sw: usize,
    sh: usize,
    x: i32,
    y: i32,
    r: f32,
    alpha: u32,
    dim: u32,
)
    ensures { px.new ≡ painted_on w h (straight_rule w h (record { x0 = x0; y0 = y0; x1 = x1; y1 = y1 }) src.now (record { w = sw; h = sh }) (record { x = x; y = y; r = r; alpha = alpha; dim = dim })) px.old }
{
    source::copy_rounded_dim(
        px,
        Size { w, h },
        IRect { x0, y0, x1, y1 },
        src,
        sw,
        sh,
        Blit {
            x,
            y,
            r,
            alpha,
            dim,
        },
    );
}

#[tactic(auto, using(std::proofs::lemmas::Int::ints))]
#[unsafe(no_mangle)]
pub extern "C" fn copy_scaled(
    px: &mut [u32],
    w: usize,
    h: usize,
    x0: i32,
    y0: i32,
    x1: i32,
    y1: i32,
    src: &[u32],
    sw: usize,
    sh: usize,
    x: f32,
    y: f32,
    rw: f32,
    rh: f32,
    r: f32,
    alpha: f32,
)
    ensures { px.new ≡ painted_on w h (scaled_rule w h (record { x0 = x0; y0 = y0; x1 = x1; y1 = y1 }) src.now (record { w = sw; h = sh }) (record { dest = record { x = x; y = y; w = rw; h = rh }; r = r; alpha = alpha })) px.old }
{
    source::copy_scaled(
        px,
        Size { w, h },
        IRect { x0, y0, x1, y1 },
        src,
        sw,
        sh,
        Stretch {
            dest: Rect { x, y, w: rw, h: rh },
            r,
            alpha,
        },
    );
}

#[tactic(auto, using(std::proofs::lemmas::Int::ints))]
#[unsafe(no_mangle)]
pub extern "C" fn copy_genie(
    px: &mut [u32],
    w: usize,
    h: usize,
    x0: i32,
    y0: i32,
    x1: i32,
    y1: i32,
    src: &[u32],
    sw: usize,
    sh: usize,
    x: f32,
    y: f32,
    rw: f32,
    rh: f32,
    tx: f32,
    ty: f32,
    t: f32,
    alpha: f32,
)
    ensures { px.new ≡ genied w h (record { x0 = x0; y0 = y0; x1 = x1; y1 = y1 }) src.now (record { w = sw; h = sh }) (record { from = record { x = x; y = y; w = rw; h = rh }; target = record { x = tx; y = ty }; t = t; alpha = alpha }) px.old }
{
    source::copy_genie(
        px,
        Size { w, h },
        IRect { x0, y0, x1, y1 },
        src,
        sw,
        sh,
        Flight {
            from: Rect { x, y, w: rw, h: rh },
            target: Pt { x: tx, y: ty },
            t,
            alpha,
        },
    );
}
