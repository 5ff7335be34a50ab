// A glass panel: what is worked out once for it, its edge and its brightness.
#![tactic(auto)]

mod light;
mod rim;

ghost use Rattle.std.specs.Prelude.{◌≡◌, ◌+◌, ◌-◌, ◌<◌, min};
ghost use Rattle.std.specs.Float.Ieee.{to_unsigned};
ghost use Rattle.mathf.specs.Round.{floor_of, ceil_of};
ghost use Rattle.panel.specs.Panel as Panels;

use backdrop::GlassStyle;
use canvas::Size;
use geom::Rect;
pub use light::lit_row;
pub use rim::{Slope, bend, bends, bent, depth, is_level, laid, level_at, seen, slope_at};

// What is worked out once for a panel: its edge, its brightness (what is added, and what is taken),
// the pixels of a cell, the window's corner, the picture's size, and the pixels that lie inside, clear
// of bezel and corners. The pixels of a cell are a number and no kind: places are divided by it, and
// `Panels.panel_of` names it so. What is done with a panel are functions and no methods: `lit`, `lit_row`
// and those of the edge are public by these names.
#[derive(Clone, Copy)]
pub struct Panel {
    pub rect: Rect,
    pub r: f32,
    pub bezel: f32,
    pub up: u8,
    pub down: u8,
    pub k: usize,
    pub wx: usize,
    pub wy: usize,
    pub lw: usize,
    pub lh: usize,
    pub ix0: usize,
    pub iy0: usize,
    pub ix1: usize,
    pub iy1: usize,
}

// The panel of a style over rect, on a canvas of this size.
pub fn panel_of(size: Size, rect: Rect, style: GlassStyle, table: &[f32; 33]) -> Panel
    ensures { result ≡ Panels.panel_of size.w size.h rect style table.now }
{
    let a = backdrop::window(size, rect, style, table);
    let k = backdrop::scale(style.blur);
    let lw = backdrop::cells(a.x1 - a.x0, k);
    let lh = backdrop::cells(a.y1 - a.y0, k);
    let r = edge::corner_radius(rect, style.radius);
    let bezel = mathf::max(style.bezel, 0.0);
    let bright: f32 = style.brightness * 255.0;
    let up = mathf::to_u8(bright);
    let down = mathf::to_u8(-bright);
    let inner = inner_of(rect, bezel, r);
    let ix0 = first(inner.x);
    let iy0 = first(inner.y);
    let ix1 = end(inner.right());
    let iy1 = end(inner.bottom());
    Panel {
        rect,
        r,
        bezel,
        up,
        down,
        k,
        wx: a.x0,
        wy: a.y0,
        lw,
        lh,
        ix0,
        iy0,
        ix1,
        iy1,
    }
}

#[tactic(auto, unfolding(crate::specs::Panel::inner_of))]
fn inner_of(rect: Rect, bezel: f32, r: f32) -> Rect
    ensures { result ≡ Panels.inner_of rect bezel r }
{
    rect.inset(mathf::max(bezel, r) + 1.0)
}

// The first whole column or row from v on, and the one that v ends in: one rounds up and one down.

fn first(v: f32) -> usize
    ensures { result ≡ to_unsigned 32 (ceil_of v) }
{
    mathf::to_u32(mathf::ceil(v)) as usize
}

fn end(v: f32) -> usize
    ensures { result ≡ to_unsigned 32 (floor_of v) }
{
    mathf::to_u32(mathf::floor(v)) as usize
}

// The panel has no bezel, square corners and no shine.
#[tactic(auto, unfolding(crate::specs::Panel::is_flat))]
pub fn is_flat(p: Panel, spec: f32) -> bool
    ensures { result ≡ Panels.is_flat p spec }
{
    p.bezel < 0.5 && p.r < 0.5 && spec == 0.0 && p.lw >= 2 && p.lh >= 2
}

// The brightness.

// A pixel with the panel's brightness. Tried: by `Color::from_pix` and `pix` it proves, but the loop
// over a row is slower.
#[tactic(auto, unfolding(crate::specs::Panel::lit))]
pub fn lit(p: Panel, q: u32) -> u32
    ensures { result ≡ Panels.lit p q }
{
    lit_ch(p.up, p.down, q / 65536 % 256) * 65536
        + lit_ch(p.up, p.down, q / 256 % 256) * 256
        + lit_ch(p.up, p.down, q % 256)
}

fn lit_ch(up: u8, down: u8, v: u32) -> u32
    requires { v < 256 }
    ensures { result ≡ min (v + up - down) 255 }
{
    (v + u32::from(up)).saturating_sub(u32::from(down)).min(255)
}
