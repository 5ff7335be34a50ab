// The soft shadow of a rounded rectangle. A row has one alpha in its middle columns; only the columns
// on either side of them are worked out one by one.
#![tactic(auto)]

ghost use Rattle.std.specs.Prelude.{◌≡◌, ◌+◌, ◌-◌, ◌*◌, ◌≤◌, ◌<◌, length, get_or};
ghost use Rattle.canvas.specs.Rows.{map_row};
ghost use Rattle.canvas.specs.Canvas.{painted_on, boxed, area_box};
ghost use Rattle.edge.specs.Edge.{Held};
ghost use Rattle.shadow.specs.Shadow as Rule;
ghost use Rattle.shadow.specs.Private as Private;

use canvas::{Area, Size};
use color::Color;
use edge::Middle;
use geom::{IRect, Rect};
use std::array;

// The alphas of a shadow's band, from full to none.
const ENTRIES: usize = 97;
// The most columns of a strip.
const STRIP: usize = 2048;

// A shadow whose alpha falls from full to none over the band from blur inside the edge to blur
// outside it. r is the rectangle's corner radius. With skip_inside the middle columns at full alpha
// stay: what casts the shadow covers them. It is a flag, as `shadow_rule` reads it and a layer has it.
#[derive(Clone, Copy)]
pub struct Shadow {
    pub r: f32,
    pub blur: f32,
    pub color: Color,
    pub skip_inside: bool,
}

// What casts the shadow, whose corner radius is held to the rectangle, and the alphas of its band.
#[derive(Drop)]
struct Caster {
    rect: Rect,
    shadow: Shadow,
    table: [u32; ENTRIES],
}

// The rectangle's shadow on a canvas of this size under the clip. Pixels and size are two, as
// `painted_on` has them: pixels that are no canvas of the size come in, and stay.
pub fn shadow_rrect(px: &mut [u32], size: Size, clip: IRect, rect: Rect, shadow: Shadow)
    ensures { px.new ≡ painted_on size.w size.h (Rule.shadow_rule size.w size.h clip rect shadow) px.old }
{
    if is_unseen(shadow.blur, shadow.color) {
        return;
    }
    let reach = rect.inset(-shadow.blur).outer_pixels();
    let area = size.area_on(px.len(), clip, reach);
    // An empty box makes no table of alphas.
    if area.is_empty() {
        return;
    }
    let r = edge::corner_radius(rect, shadow.r);
    let caster = Caster {
        rect,
        shadow: Shadow { r, ..shadow },
        table: alphas(shadow.color.a),
    };
    shadow_strips(px, size, area, &caster);
}

#[tactic(auto, unfolding(crate::specs::Shadow::no_shadow))]
fn is_unseen(blur: f32, color: Color) -> bool
    ensures { result ≡ Rule.no_shadow blur color }
{
    color.a == 0 || blur <= 0.0
}

// The area in strips of its columns, from left to right: a strip's alphas are few enough to be kept on
// the stack, in an array of which a narrower strip uses the first.
fn shadow_strips(px: &mut [u32], size: Size, area: Area, caster: &Caster)
    requires { (area.x0 ≤ area.x1) × (area.x1 ≤ 4096) }
    ensures { px.new ≡ painted_on size.w size.h (boxed (area_box area) (Rule.shadow_pix caster.now.table caster.now.rect caster.now.shadow)) px.old }
{
    let mut cols = [0u32; STRIP];
    for x0 in (area.x0..area.x1).step_by(STRIP) {
        let x1 = canvas::strip_end(x0, area.x1, STRIP);
        col_alphas(&mut cols[..x1 - x0], x0, caster);
        canvas::paint_rows(
            px,
            size,
            Area { x0, x1, ..area },
            |y, row| shadow_row(row, x0, y as u16, caster, &cols),
        );
    }
}

// The alphas of the columns from x0 on.
fn col_alphas(cols: &mut [u32], x0: usize, caster: &Caster)
    requires { x0 + length cols.old ≤ 4096 }
    ensures { Private.Columns caster.now.table cols.new x0 (length cols.old) caster.now.rect caster.now.shadow.blur }
{
    for (i, a) in cols.iter_mut().enumerate() {
        *a = caster.alpha(col_sd(caster.rect, (x0 + i) as u16));
    }
}

// A row from column x0 on: its middle columns, and those on either side. The alphas in cols begin at
// column x0. They, the row's pixels and x0 are arguments: a struct of them would be taken apart and
// made again for each span.
fn shadow_row(dst: &mut [u32], x0: usize, y: u16, caster: &Caster, cols: &[u32])
    requires row { x0 + length dst.old ≤ 4096 }
    requires columns { Private.Columns caster.now.table cols.now x0 (length dst.old) caster.now.rect caster.now.shadow.blur }
    ensures { dst.new ≡ map_row (λ i p. Rule.shadow_pix caster.now.table caster.now.rect caster.now.shadow (x0 + i) y p) dst.old }
{
    let color = caster.shadow.color;
    let middle = caster.middle(x0, x0 + dst.len(), y);
    let a = middle.from - x0;
    let b = middle.to - x0;
    outer_row(&mut dst[..a], x0, y, caster, cols);
    canvas::row_blend(
        &mut dst[a..b],
        color.r,
        color.g,
        color.b,
        caster.middle_alpha(y),
    );
    outer_row(&mut dst[b..], middle.to, y, caster, &cols[b..]);
}

// Columns from x on, each at its own distance from the edge.
#[tactic(auto, unfolding(crate::specs::Shadow::row_turn))]
fn outer_row(dst: &mut [u32], x: usize, y: u16, caster: &Caster, cols: &[u32])
    requires row { x + length dst.old ≤ 4096 }
    requires columns { Private.Columns caster.now.table cols.now x (length dst.old) caster.now.rect caster.now.shadow.blur }
    ensures { dst.new ≡ map_row (λ i p. Private.outer_pix caster.now.table caster.now.rect caster.now.shadow (x + i) y p) dst.old }
{
    let qy = edge::row_axis(caster.rect, caster.shadow.r, y);
    if qy <= 0.0 {
        side_row(dst, x, row_sd(caster.rect, y), caster, cols);
    } else {
        turn_row(dst, x, qy, caster);
    }
}

// In a straight row, at the distance sdy: the column's alpha or the row's, whichever is farther out.
fn side_row(dst: &mut [u32], x: usize, sdy: f32, caster: &Caster, cols: &[u32])
    requires { (length dst.old ≤ length cols.now) × (x + length dst.old ≤ 4096) }
    ensures { dst.new ≡ map_row (λ i p. Rule.tinted caster.now.shadow.color (Private.farther sdy (Rule.col_sd caster.now.rect (x + i)) (get_or cols.now i 0) (Rule.alpha_of caster.now.table caster.now.shadow.blur sdy)) p) dst.old }
{
    let rect = caster.rect;
    let color = caster.shadow.color;
    let a = caster.alpha(sdy);
    canvas::map_pixels(dst, |i, p| {
        let v = farther(sdy, col_sd(rect, (x + i) as u16), cols[i], a);
        color::blend(p, color.r, color.g, color.b, v)
    });
}

#[tactic(auto, unfolding(crate::specs::Private::farther))]
fn farther(sdy: f32, sdx: f32, col: u32, row: u32) -> u32
    ensures { result ≡ Private.farther sdy sdx col row }
{
    if sdx > sdy { col } else { row }
}

// In a row through the corners.
fn turn_row(dst: &mut [u32], x0: usize, qy: f32, caster: &Caster)
    requires { x0 + length dst.old ≤ 4096 }
    ensures { dst.new ≡ map_row (λ i p. Rule.tinted caster.now.shadow.color (Rule.alpha_of caster.now.table caster.now.shadow.blur (Rule.turn_sd caster.now.rect caster.now.shadow.r qy (x0 + i))) p) dst.old }
{
    let color = caster.shadow.color;
    canvas::map_pixels(dst, |i, p| {
        let a = caster.alpha(turn_sd(caster.rect, caster.shadow.r, qy, (x0 + i) as u16));
        color::blend(p, color.r, color.g, color.b, a)
    });
}

impl Caster {
    // The middle columns of row y, of the columns x0 up to x1.
    #[tactic(auto, unfolding(crate::specs::Private::middle_from, crate::specs::Private::middle_to, crate::specs::Private::near_end, crate::specs::Private::far_end, crate::specs::Private::straight, crate::specs::Shadow::row_turn))]
    fn middle(&self, x0: usize, x1: usize, y: u16) -> Middle
        requires { x0 ≤ x1 }
        ensures ordered { (x0 ≤ result.from) × (result.from ≤ result.to) × (result.to ≤ x1) }
        ensures held { Held (Private.middle_from self.now.rect self.now.shadow y) (Private.middle_to self.now.rect self.now.shadow y) x0 x1 result }
    {
        let half = self.rect.w * 0.5;
        let c = self.rect.cx();
        let r = self.shadow.r;
        let blur = self.shadow.blur;
        let (near, far) = if edge::row_axis(self.rect, r, y) <= 0.0 {
            (c - half + blur, c + half - blur)
        } else {
            (c - (half - r), c + (half - r))
        };
        edge::middle_cols(
            mathf::to_i32(mathf::ceil(near)),
            mathf::to_i32(mathf::floor(far)),
            x0,
            x1,
        )
    }

    // Their alpha.
    #[tactic(auto, unfolding(crate::specs::Private::middle_alpha, crate::specs::Private::straight, crate::specs::Shadow::row_turn))]
    fn middle_alpha(&self, y: u16) -> u32
        ensures { result ≡ Private.middle_alpha self.now.table self.now.rect self.now.shadow y }
    {
        let qy = edge::row_axis(self.rect, self.shadow.r, y);
        if qy <= 0.0 {
            self.inside_alpha(row_sd(self.rect, y))
        } else {
            self.alpha(qy - self.shadow.r)
        }
    }

    #[tactic(auto, unfolding(crate::specs::Shadow::inside_alpha))]
    fn inside_alpha(&self, sdy: f32) -> u32
        ensures { result ≡ Rule.inside_alpha self.now.table self.now.shadow.blur self.now.shadow.skip_inside sdy }
    {
        let a = self.alpha(sdy);
        if self.shadow.skip_inside && a >= self.table[0] {
            0
        } else {
            a
        }
    }

    // The alpha at the distance sd from the edge.
    #[tactic(auto, unfolding(crate::specs::Shadow::alpha_of))]
    fn alpha(&self, sd: f32) -> u32
        ensures { result ≡ Rule.alpha_of self.now.table self.now.shadow.blur sd }
    {
        let blur = self.shadow.blur;
        let t: f32 = (sd + blur) * (96.0 / (2.0 * blur));
        if t <= 0.0 {
            self.table[0]
        } else if t >= 96.0 {
            0
        } else {
            self.table[entry_at(t)]
        }
    }
}

// The entry for t, held to the last.
#[tactic(auto, unfolding(crate::specs::Shadow::entry_at))]
fn entry_at(t: f32) -> usize
    ensures { (result ≡ Rule.entry_at t) × (result < 97) }
{
    (mathf::to_u32(t) as usize).min(ENTRIES - 1)
}

#[tactic(auto, unfolding(crate::specs::Shadow::alphas))]
fn alphas(a: u8) -> [u32; ENTRIES]
    ensures { result ≡ Rule.alphas a }
{
    array::from_fn(|i| fall_off(a, i))
}

fn fall_off(a: u8, i: usize) -> u32
    requires { i ≤ 96 }
    ensures { result ≡ Rule.fall_off a i }
{
    let t: f32 = i as f32 / 96.0;
    mathf::to_u32((1.0 - t * t * (3.0 - 2.0 * t)) * (a as f32) + 0.5)
}

// Distances. Rows and columns have a function each: a direction would be a switch.

#[tactic(auto, unfolding(crate::specs::Shadow::row_sd))]
fn row_sd(rect: Rect, y: u16) -> f32
    ensures { result ≡ Rule.row_sd rect y }
{
    beyond(edge::centre(y), rect.cy(), rect.h * 0.5)
}

// `edge::axis` with no corner, without the zero that it would subtract.
#[tactic(auto, unfolding(crate::specs::Shadow::beyond))]
fn beyond(p: f32, c: f32, half: f32) -> f32
    ensures { result ≡ Rule.beyond p c half }
{
    mathf::fabs(p - c) - half
}

#[tactic(auto, unfolding(crate::specs::Shadow::col_sd))]
fn col_sd(rect: Rect, x: u16) -> f32
    ensures { result ≡ Rule.col_sd rect x }
{
    beyond(edge::centre(x), rect.cx(), rect.w * 0.5)
}

// `edge::corner_sd` in a row that is known to pass through the corners, without its test of qy.
#[tactic(auto, unfolding(crate::specs::Shadow::turn_sd))]
fn turn_sd(rect: Rect, r: f32, qy: f32, x: u16) -> f32
    ensures { result ≡ Rule.turn_sd rect r qy x }
{
    let qx: f32 = edge::col_axis(rect, r, x);
    if qx > 0.0 {
        mathf::sqrt(qx * qx + qy * qy) - r
    } else {
        qy - r
    }
}
