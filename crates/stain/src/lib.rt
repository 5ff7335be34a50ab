// The stain of a hidden source as a map: where on the canvas its pixels may have reached, layer after layer.
#![tactic(auto)]

ghost use Rattle.std.specs.Prelude.{◌≡◌, true, ◌*◌, ◌/◌, ◌≤◌, ◌<◌, length};
ghost use Rattle.canvas.specs.Canvas.{is_canvas, area_box};
ghost use Rattle.block.specs.Bytes.{block_at};
ghost use Rattle.block.specs.Fields as Fields;
ghost use Rattle.taint.specs.Stain as Stain;
ghost use Rattle.layer.specs.Layer as Layer;
ghost use Rattle.accept.specs.Tests.{sizes_answer_to};
ghost use Rattle.play.specs.Play.{stain_after};
ghost use Rattle.stain.specs.Map as Map;
ghost use Rattle.stain.specs.Private as Private;

use accept::Show;
use answer::Answer;
use block::Kind;
use canvas::{Area, Size};

// ---- rows and boxes of the map: its bytes are 1 and 0, and its size goes beside it, as C has both

// v at each pixel of the box a. `canvas::paint_rows` walks rows of u32: a type parameter there, for the one caller that
// has bytes, is no plainer than this loop.
fn put(map: &mut [u8], size: Size, a: Area, v: u8)
    requires size { (length map.old ≡ size.h * size.w) × (size.w ≤ 4096) × (size.h ≤ 4096) }
    requires inside { (a.x0 ≤ a.x1) × (a.x1 ≤ size.w) × (a.y0 ≤ a.y1) × (a.y1 ≤ size.h) }
    ensures { map.new ≡ Private.put size.w (area_box a) v map.old }
{
    for y in a.y0..a.y1 {
        map[y * size.w + a.x0..y * size.w + a.x1].fill(v);
    }
}

// Some byte of the row is not 0: its greatest is not. Without an early end the machine takes many bytes at a time.
fn any(row: &[u8]) -> bool
    ensures { result ≡ Stain.nonempty (length row.now) (Private.shown row.now) }
{
    let mut most: u8 = 0;
    for v in row {
        most = most.max(*v);
    }
    0 < most
}

// The window a meets the stain.
fn meets(map: &[u8], size: Size, a: Area) -> bool
    requires size { (length map.now ≡ size.h * size.w) × (size.w ≤ 4096) × (size.h ≤ 4096) }
    requires inside { (a.x0 ≤ a.x1) × (a.x1 ≤ size.w) × (a.y0 ≤ a.y1) × (a.y1 ≤ size.h) }
    ensures { result ≡ Stain.meets size.w (length map.now) (area_box a) (Private.shown map.now) }
{
    for y in a.y0..a.y1 {
        if any(&map[y * size.w + a.x0..y * size.w + a.x1]) {
            return true;
        }
    }
    false
}

// ---- one layer

// A straight copy that leaves nothing of the canvas in its box.
#[tactic(auto, unfolding(layer::specs::Layer::is_exact))]
fn is_exact(b: &[u8]) -> bool
    ensures { result ≡ Layer.is_exact b.now }
{
    block::radius(b) == 0.0 && block::alpha(b) == 255 && block::dim(b) == 0
}

// A copy of the hidden source s adds its box; an exact copy of another source removes it. The definition of a copy has
// `exact` beside the source.
#[tactic(auto, unfolding(crate::specs::Private::copy_mark))]
fn copy_mark(b: &[u8], exact: bool, s: u32) -> Option<u8>
    ensures { result ≡ Private.copy_mark s (Fields.source b.now) exact }
{
    if block::source(b) == s {
        return Some(1);
    }
    if exact { Some(0) } else { None }
}

// What the layer of a block does to the pixels of its box: the byte at each, or nothing. A panel whose window meets the
// stain adds its box.
#[tactic(auto, unfolding(crate::specs::Private::mark, layer::specs::Layer::sort_by, block::specs::Fields::kind_of))]
fn mark_of(b: &[u8], size: Size, s: u32, map: &[u8]) -> Option<u8>
    requires { is_canvas size.w size.h (length map.now) ≡ true }
    ensures { result ≡ Private.mark size.w s (Layer.sort_by (Fields.kind_of (Fields.kind b.now)) size.w size.h b.now) map.now }
{
    match block::kind_of(b) {
        Some(Kind::Glass) => {
            if meets(map, size, boxes::window_of(b, size)) {
                return Some(1);
            }
            None
        }
        Some(Kind::Straight) => copy_mark(b, is_exact(b), s),
        Some(Kind::Scaled | Kind::Genie) => copy_mark(b, false, s),
        _ => None,
    }
}

// Block n of the rundown. What is read and the map that is written go apart: a caller lends them so.
fn stain_layer(show: Show, n: usize, s: u32, map: &mut [u8])
    requires { (n < length show.rundown.now / 512) × (is_canvas show.size.w show.size.h (length map.old) ≡ true) }
    ensures { map.new ≡ Private.marked_by show.entry.size.w show.entry.size.h show.entry.table.now s (block_at show.entry.rundown.now n) map.old }
{
    let b = &show.rundown[512 * n..512 * n + 512];
    if let Some(v) = mark_of(b, show.size, s, map) {
        put(map, show.size, boxes::box_of(b, show.size, show.table), v);
    }
}

// ---- the rundown

// The layers of a rundown that passes, the lowest first.
fn stain_all(show: Show, s: u32, map: &mut [u8])
    requires { sizes_answer_to show (length map.old) ≡ Ok (length show.rundown.now / 512) }
    ensures { map.new ≡ Map.map_of (stain_after (Ok (length show.entry.rundown.now / 512)) show.entry.size.w show.entry.size.h (length map.old) show.entry.table.now show.entry.rundown.now s) map.old }
{
    map.fill(0);
    let count = show.rundown.len() / 512;
    // no heap: `order` has a place for each block that a rundown may have, and the first `count` are listed
    let order = order::ascending(show.rundown, count);
    for n in &order[..count] {
        stain_layer(show, usize::from(*n), s, map);
    }
}

// The map of where source s's pixels may stand after the rundown is played on a canvas of its size: a byte for each pixel,
// 1 or 0. Refused as play is, without a pool's length and without scratch; the map is as long as the canvas has pixels, or
// cause 1 refuses it.
pub fn stain(show: Show, s: u32, map: &mut [u8]) -> Answer
    ensures answer { result ≡ sizes_answer_to show.entry (length map.old) }
    ensures map { map.new ≡ Map.stain_map show.entry.size.w show.entry.size.h show.entry.table.now show.entry.rundown.now s map.old }
{
    let count = accept::test_sizes(show, map.len())?;
    stain_all(show, s, map);
    Ok(count)
}
