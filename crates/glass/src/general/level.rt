// The rows above and below the inside. Where the top or the bottom is the nearest side, what a pixel shows
// differs from column to column by the column's place alone: the rest is worked out once for a row.
ghost use Rattle.std.specs.Prelude.{◌≡◌, ◌+◌, ◌≤◌, ◌<◌, length};
ghost use Rattle.mathf.specs.Real as Real;
ghost use Rattle.canvas.specs.Rows.{map_row};
ghost use Rattle.panel.specs.Rim as Rim;
ghost use Rattle.glass.specs.Places as Places;
ghost use Rattle.glass.specs.General as General;
ghost use Rattle.glass.specs.Private as Private;

use super::super::View;
use super::Columns;

// What such pixels of a row share: the distance from the edge and the coverage, by how much the bezel
// bends the view, if it does, and the place of the rows.
#[derive(Clone, Copy)]
struct Shared {
    sd: f32,
    cov: u32,
    bend: Option<f32>,
    fy: usize,
}

// A pixel, and the columns that were mixed last, those of the column held. `beside` takes these two without
// a pixel.
#[derive(Clone, Copy)]
struct Turn {
    q: u32,
    held: usize,
    kept: Columns,
}

// Row y from column x on, all of the edge.
pub(super) fn level_row(dst: &mut [u32], x: usize, y: u16, view: View)
    requires { x + length dst.old ≤ 4096 }
    ensures { dst.new ≡ map_row (λ i q. General.edge_pix view.entry.p view.entry.table.now view.entry.lo.now (x + i) y q) dst.old }
{
    let v = shared_of(view, y);
    let mut kept = super::columns_at(view, v.fy, 0);
    let mut held = 0;
    for i in 0..dst.len() {
        let t = level_pix(kept, held, dst[i], (x + i) as u16, y, v, view);
        kept = t.kept;
        held = t.held;
        dst[i] = t.q;
    }
}

fn shared_of(view: View, y: u16) -> Shared
    ensures { Private.IsShared view.entry.p view.entry.table.now y result }
{
    let s = panel::level_at(view.p, y);
    let bend = panel::bent(view.p, view.table, panel::depth(s.sd));
    let fy = super::sight(view, s, 0, y).fy;
    let cov = edge::cov8(s.sd);
    Shared {
        sd: s.sd,
        cov,
        bend,
        fy,
    }
}

// The pixel q in column x. The columns kept may be those that it lies between.
fn level_pix(kept: Columns, held: usize, q: u32, x: u16, y: u16, v: Shared, view: View) -> Turn
    requires in_picture { held < view.p.lw }
    requires shared_by_row { (Private.IsShared view.p view.table.now y v) × (Private.AreColumns view.lo.now view.p.lw view.p.lh v.fy held kept) }
    ensures { (result.q ≡ General.edge_pix view.entry.p view.entry.table.now view.entry.lo.now x y q) × (result.held < view.entry.p.lw) × (Private.AreColumns view.entry.lo.now view.entry.p.lw view.entry.p.lh v.fy result.held result.kept) }
{
    let level = panel::is_level(view.p, x, y);
    if !level {
        let o = super::edge_pix(q, x, y, view);
        return Turn { q: o, held, kept };
    }
    if v.sd > 0.5 {
        return Turn { q, held, kept };
    }
    let fx = level_place(view, v, x);
    let at = fx / 256;
    let now = super::beside(kept, held, view, v.fy, at);
    let c = panel::lit(view.p, super::between(now, (fx % 256) as u32));
    let o = panel::laid(v.cov, c, q);
    Turn {
        q: o,
        held: at,
        kept: now,
    }
}

// The place of the columns that the pixel in column x sees.
fn level_place(view: View, v: Shared, x: u16) -> usize
    ensures { result ≡ Places.place view.entry.p.k view.entry.p.lw (Private.level_seen view.entry.p v.bend x) }
{
    let p = view.p;
    match v.bend {
        Some(b) => super::super::place(p.k, p.lw, panel::seen(p.wx as u16, x, 0.0, b)),
        None => super::super::col_place(view, x),
    }
}
