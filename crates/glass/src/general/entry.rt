// The entry: what is worked out once for a panel, and which way it is painted.
ghost use Rattle.std.specs.Prelude.{◌≡◌, ◌||◌, ◌*◌, ◌≤◌, length};
ghost use Rattle.canvas.specs.Canvas.{painted_on, boxed, area_box};
ghost use Rattle.glass.specs.Glass as Glass;
ghost use Rattle.glass.specs.Private as Private;

use super::super::{Pane, View};
use canvas::{Area, Size};
use geom::{IRect, Rect};
use panel::Panel;

// A panel over the pixels of its rectangle. table holds the displacements of its bezel. The small
// picture of what lies behind it is made in the first bytes of a, and stays there; as many of b's are
// used for the blur, and what they hold afterwards is left free. Where a slice is too short or the
// panel has no pixel on the canvas, nothing changes.
pub fn glass(
    px: &mut [u32],
    size: Size,
    clip: IRect,
    pane: Pane,
    table: &[f32; 33],
    a: &mut [u8],
    b: &mut [u8],
)
    ensures canvas { px.new ≡ Glass.glassed_in size.w size.h clip pane.rect pane.style table.now (length a.old) (length b.old) px.old }
    ensures first { a.new ≡ Glass.picture_in size.w size.h clip pane.rect pane.style table.now px.old a.old (length b.old) }
    ensures second { Glass.Kept (Glass.scratch_used size.w size.h clip pane.rect pane.style table.now (length px.old) (length a.old) (length b.old)) b.old b.new }
{
    let rect = pane.rect;
    let style = pane.style;
    let n = backdrop::need(size, clip, rect, style, table);
    if a.len() < n || b.len() < n {
        return;
    }
    let area = box_on(px.len(), size, clip, rect);
    if area.is_empty() {
        return;
    }
    backdrop::picture(px, size, rect, style, table, a, b);
    let p = panel::panel_of(size, rect, style, table);
    paint(px, size, area, &a[..n], p, style.spec, table);
}

// The panel's box on n pixels that are to be a canvas of this size: all 0, as `Size::area_on` has it, where
// it has no pixel.
#[tactic(auto, unfolding(crate::specs::Private::panel_area))]
fn box_on(n: usize, size: Size, clip: IRect, rect: Rect) -> Area
    ensures { result ≡ Private.panel_area n size.w size.h clip rect }
{
    if backdrop::too_small(rect) {
        return Area::default();
    }
    size.area_on(n, clip, rect.outer_pixels())
}

fn paint(px: &mut [u32], size: Size, area: Area, lo: &[u8], p: Panel, spec: f32, table: &[f32; 33])
    requires { Private.Fitting p lo.now }
    ensures { px.new ≡ painted_on size.w size.h (boxed (area_box area) (Glass.panel_pix p spec table.now lo.now)) px.old }
{
    if p.lw == 0 || p.lh == 0 {
        return;
    }
    let view = View { lo, p, table };
    if panel::is_flat(p, spec) {
        super::super::flat_rows(px, size, area, view);
    } else {
        super::general_rows(px, size, area, view);
    }
}
