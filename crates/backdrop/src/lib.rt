// The small picture behind a glass panel: the canvas about the panel, made smaller, blurred and
// tinted.
#![tactic(auto)]

mod extent;
mod small;

ghost use Rattle.std.specs.Prelude.{◌≡◌, ◌≤◌};
ghost use Rattle.backdrop.specs.Window as Window;

use canvas::Size;
use color::Color;
pub use extent::{need, scale, too_small, window};
use geom::Rect;
pub use small::picture;

// How a panel looks. blur is in pixels, brightness is added, bezel is the width of the rim that bends
// the view, and spec, the strength of its shine, only decides which way the panel is painted.
#[derive(Clone, Copy)]
pub struct GlassStyle {
    pub radius: f32,
    pub blur: f32,
    pub tint: Color,
    pub saturation: f32,
    pub brightness: f32,
    pub bezel: f32,
    pub spec: f32,
}

// The bytes of the small picture. Its panel goes as rectangle, style and table here and in the painters: a
// caller hands each on as it has it. Four functions ask that sides are at most 4096, of a canvas or of
// cells: unlike things, which no type would hold together.
fn picture_bytes(size: Size, rect: Rect, style: GlassStyle, table: &[f32; 33]) -> usize
    requires { (size.w ≤ 4096) × (size.h ≤ 4096) }
    ensures { result ≡ Window.picture_bytes size.w size.h rect style table.now }
{
    let a = window(size, rect, style, table);
    let k = scale(style.blur);
    3 * (cells(a.x1 - a.x0, k) * cells(a.y1 - a.y0, k))
}

// The cells of k pixels that n pixels make; none where k is 0.
pub fn cells(n: usize, k: usize) -> usize
    ensures { result ≡ Window.cells n k }
{
    if k == 0 {
        return 0;
    }
    n.div_ceil(k)
}
