// The edge of a panel: how far a pixel lies from it, what the bezel shows there, and how it is laid over
// the canvas.
ghost use Rattle.std.specs.Prelude.{◌≡◌, ◌≤◌};
ghost use Rattle.panel.specs.Rim as Rim;
ghost use Rattle.panel.specs.Private as Private;

use super::Panel;

// A pixel's distance from the edge, and the edge's normal there.
#[derive(Clone, Copy)]
pub struct Slope {
    pub sd: f32,
    pub nx: f32,
    pub ny: f32,
}

// Those of the pixel (x, y).
#[tactic(auto, unfolding(crate::specs::Rim::slope))]
pub fn slope_at(p: Panel, x: u16, y: u16) -> Slope
    ensures { result ≡ Rim.slope p x y }
{
    let dx: f32 = edge::centre(x) - p.rect.cx();
    let dy: f32 = edge::centre(y) - p.rect.cy();
    let qx = edge::col_axis(p.rect, p.r, x);
    let qy = edge::row_axis(p.rect, p.r, y);
    nearest(dx, dy, qx, qy, p.r)
}

// The slope in row y where the top or the bottom is the nearest side: the same in every column.
#[tactic(auto, unfolding(crate::specs::Private::level))]
pub fn level_at(p: Panel, y: u16) -> Slope
    ensures { result ≡ Private.level p y }
{
    let qy = edge::row_axis(p.rect, p.r, y);
    let ny = side(edge::centre(y) - p.rect.cy());
    Slope {
        sd: qy - p.r,
        nx: 0.0,
        ny,
    }
}

// Whether it is the slope of the pixel (x, y).
pub fn is_level(p: Panel, x: u16, y: u16) -> bool
    ensures { result ≡ Private.on_level (Private.col_past p x) (Private.row_past p y) }
{
    on_level(
        edge::col_axis(p.rect, p.r, x),
        edge::row_axis(p.rect, p.r, y),
    )
}

#[tactic(auto, unfolding(crate::specs::Private::on_level))]
fn on_level(qx: f32, qy: f32) -> bool
    ensures { result ≡ Private.on_level qx qy }
{
    !(qx > 0.0 && qy > 0.0 || qx > qy)
}

#[tactic(auto, unfolding(crate::specs::Rim::nearest))]
fn nearest(dx: f32, dy: f32, qx: f32, qy: f32, r: f32) -> Slope
    ensures { result ≡ Rim.nearest dx dy qx qy r }
{
    if qx > 0.0 && qy > 0.0 {
        return round_corner(dx, dy, qx, qy, r);
    }
    if qx > qy {
        let nx = side(dx);
        return Slope {
            sd: qx - r,
            nx,
            ny: 0.0,
        };
    }
    let ny = side(dy);
    Slope {
        sd: qy - r,
        nx: 0.0,
        ny,
    }
}

#[tactic(auto, unfolding(crate::specs::Rim::round_corner))]
fn round_corner(dx: f32, dy: f32, qx: f32, qy: f32, r: f32) -> Slope
    ensures { result ≡ Rim.round_corner dx dy qx qy r }
{
    let l = mathf::max(mathf::sqrt(qx * qx + qy * qy), 0.0001);
    let nx = qx / l * side(dx);
    let ny = qy / l * side(dy);
    Slope { sd: l - r, nx, ny }
}

#[tactic(auto, unfolding(crate::specs::Rim::side))]
fn side(d: f32) -> f32
    ensures { result ≡ Rim.side d }
{
    if d < 0.0 { -1.0 } else { 1.0 }
}

// How deep inside the edge. By a test: at 0 a maximum could give -0.
#[tactic(auto, unfolding(crate::specs::Rim::depth))]
pub fn depth(sd: f32) -> f32
    ensures { result ≡ Rim.depth sd }
{
    if sd < 0.0 { -sd } else { 0.0 }
}

// Whether the bezel moves what is seen at the depth d.
#[tactic(auto, unfolding(crate::specs::Rim::bends))]
pub fn bends(p: Panel, d: f32) -> bool
    ensures { result ≡ Rim.bends p d }
{
    d < p.bezel && p.bezel > 0.5
}

// By how much the bezel moves it.
#[tactic(auto, unfolding(crate::specs::Rim::bend))]
pub fn bend(table: &[f32; 33], bezel: f32, d: f32) -> f32
    ensures { result ≡ Rim.bend table.now bezel d }
{
    let t: f32 = mathf::saturate(d / bezel) * 32.0;
    let i = (mathf::to_u32(t) as usize).min(32);
    let j = (i + 1).min(32);
    let a: f32 = table[i];
    a + (table[j] - a) * (t - i as f32)
}

// By how much the bezel moves what is seen at the depth d, if it does.
#[tactic(auto, unfolding(crate::specs::Rim::bent))]
pub fn bent(p: Panel, table: &[f32; 33], d: f32) -> Option<f32>
    ensures { result ≡ Rim.bent p table.now d }
{
    if bends(p, d) {
        Some(bend(table, p.bezel, d))
    } else {
        None
    }
}

// How far from the window's side the pixel v sees along one axis.
#[tactic(auto, unfolding(crate::specs::Rim::seen))]
pub fn seen(from: u16, v: u16, normal: f32, bent: f32) -> usize
    ensures { (result ≡ Rim.seen from v normal bent) × (result ≤ 8388607) }
{
    let s: f32 = edge::centre(v) - normal * bent;
    let n = mathf::to_u32((s - from as f32) * 256.0);
    (n as usize).min(8388607)
}

// The colour o at the coverage cov of 255 over the pixel q. `Rim.laid` takes 255 parts, where a copy takes
// 256.
#[tactic(auto, unfolding(crate::specs::Rim::laid))]
pub fn laid(cov: u32, o: u32, q: u32) -> u32
    ensures { result ≡ Rim.laid cov o q }
{
    if cov >= 255 {
        return o;
    }
    color::mix_pix(q, o, cov * 256 / 255)
}
