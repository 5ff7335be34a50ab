// A layer's box and its window, worked out from its block.
#![tactic(auto)]

ghost use Rattle.std.specs.Prelude.{◌≡◌, true, cond, ◌||◌, ◌*◌};
ghost use Rattle.std.specs.Float.Ieee.{lt};
ghost use Rattle.geom.specs.Geom.{two, canvas, intersect, outer_pixels};
ghost use Rattle.canvas.specs.Canvas.{is_canvas, box_on};
ghost use Rattle.straight.specs.Straight.{copy_box};
ghost use Rattle.sources.specs.Table.{sides_of};
ghost use Rattle.backdrop.specs.Window.{area_of};
ghost use Rattle.frame.specs.Frame.{frame_box};
ghost use Rattle.block.specs.Fields as Fields;
ghost use Rattle.layer.specs.Layer as Layer;
ghost use Rattle.boxes.specs.Boxes as Boxes;

use block::Kind;
use canvas::{Area, Size};
use geom::{IRect, Rect};

// The layer's box on a canvas of this size, all 0 where it has no pixel: C takes its four sides so, and `box_area` has them.
// The table has the sources' sides.
pub fn box_of(b: &[u8], size: Size, table: &[u32]) -> Area
    ensures { result ≡ Boxes.box_area size.w size.h table.now b.now }
{
    if !is_size(size) {
        return Area::default();
    }
    match block::kind_of(b) {
        Some(Kind::Fill | Kind::Stroke | Kind::Scaled) => {
            clipped(b, size, block::rect(b).outer_pixels())
        }
        Some(Kind::Shadow) => {
            let grown = block::rect(b).inset(-block::blur(b));
            clipped(b, size, grown.outer_pixels())
        }
        Some(Kind::Glass) => clipped(b, size, panel(block::rect(b))),
        Some(Kind::Straight) => clipped(b, size, copied(b, table)),
        Some(Kind::Genie) => clipped(b, size, whole(size)),
        Some(Kind::Frame) => frame_box(b, size),
        None => Area::default(),
    }
}

// The window that the block has as a glass layer.
pub fn window_of(b: &[u8], size: Size) -> Area
    ensures { result ≡ area_of (Layer.window size.w size.h b.now) }
{
    let table = block::entries(b);
    backdrop::window(size, block::rect(b), layer::style_of(b), &table)
}

// A canvas may have this size. Large sides are told first: their product may not fit.
pub fn is_size(size: Size) -> bool
    ensures { result ≡ is_canvas size.w size.h (size.w * size.h) }
{
    if size.w > 4096 || size.h > 4096 {
        return false;
    }
    size.is_canvas(size.w * size.h)
}

// The part of a shape that the block's clip and the canvas let through.
fn clipped(b: &[u8], size: Size, shape: IRect) -> Area
    requires { is_canvas size.w size.h (size.w * size.h) ≡ true }
    ensures { result ≡ area_of (box_on size.w size.h (Fields.clip b.now) shape) }
{
    size.area_on(size.w * size.h, block::clip(b), shape)
}

// The whole canvas: a genie may paint all that its clip lets through.
fn whole(size: Size) -> IRect
    requires { is_canvas size.w size.h (size.w * size.h) ≡ true }
    ensures { result ≡ canvas size.w size.h }
{
    IRect::new(0, 0, size.w as i32, size.h as i32)
}

// A frame's box: it ignores clips.
fn frame_box(b: &[u8], size: Size) -> Area
    ensures { result ≡ area_of (frame_box size.w size.h (Layer.surface_of b.now)) }
{
    let x0 = block::left(b) as usize;
    let y0 = block::top(b) as usize;
    let x1 = (x0 + block::width(b) as usize).min(size.w);
    let y1 = (y0 + block::height(b) as usize).min(size.h);
    if x1 <= x0 || y1 <= y0 {
        return Area::default();
    }
    Area { x0, y0, x1, y1 }
}

// A panel that is less than two pixels wide or high is not painted: it has no pixel, as the definition of its box says.
fn panel(rect: Rect) -> IRect
    ensures { result ≡ cond (lt rect.w two || lt rect.h two) (canvas 0 0) (outer_pixels rect) }
{
    if rect.w < 2.0 || rect.h < 2.0 {
        return IRect::new(0, 0, 0, 0);
    }
    rect.outer_pixels()
}

// The source at its place.
fn copied(b: &[u8], table: &[u32]) -> IRect
    ensures { result ≡ copy_box (Fields.x b.now) (Fields.y b.now) (sides_of table.now (Fields.source b.now)) }
{
    let sides = sources::sides_of(table, block::source(b));
    straight::copy_box(block::x(b), block::y(b), sides)
}
