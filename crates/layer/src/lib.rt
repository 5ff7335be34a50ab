// One layer of a rundown, painted from its block. Canvas and scratch are parameters of their own, since a contract
// could speak of a `&mut` in a struct by nested pairs alone.
#![tactic(auto)]

ghost use Rattle.std.specs.Prelude.{◌≡◌, ◌+◌, ◌*◌, ◌≤◌, ◌<◌, length};
ghost use Rattle.block.specs.Bytes.{block_at};
ghost use Rattle.glass.specs.Glass.{Kept};
ghost use Rattle.block.specs.Fields as Fields;
ghost use Rattle.sources.specs.Table.{sides_of, pixels};
ghost use Rattle.layer.specs.Layer as Layer;
ghost use Rattle.layer.specs.Private.{glazed_in, glazed_first, glazed_used};

use backdrop::GlassStyle;
use block::Kind;
use canvas::Size;
use frame::GlassSurface;
use genie::Flight;
use glass::Pane;
use scaled::Stretch;
use shadow::Shadow;
use sources::Sides;
use straight::Blit;

// The table of the sources' sides, and the pool of their pixels.
#[derive(Clone, Copy)]
pub struct Sources<'a> {
    pub table: &'a [u32],
    pub pool: &'a [u32],
}

impl<'a> Sources<'a> {
    // The pixels of a copy's source, and its sides.
    fn of_block(self, b: &[u8]) -> (&'a [u32], Sides)
        ensures { (result.0.now ≡ pixels self.entry.table.now self.entry.pool.now (Fields.source b.now)) × (result.1 ≡ sides_of self.entry.table.now (Fields.source b.now)) }
    {
        let at = sources::find(self.table, block::source(b), self.pool.len());
        (&self.pool[at.from..at.to], at.sides)
    }
}

// A glass panel's style.
pub fn style_of(b: &[u8]) -> GlassStyle
    ensures { result ≡ Layer.style_of b.now }
{
    GlassStyle {
        radius: block::radius(b),
        blur: block::blur(b),
        tint: block::colour(b),
        saturation: block::saturation(b),
        brightness: block::brightness(b),
        bezel: block::bezel(b),
        spec: block::spec(b),
    }
}

// A frame's surface.
fn surface_of(b: &[u8]) -> GlassSurface
    ensures { result ≡ Layer.surface_of b.now }
{
    GlassSurface {
        x: block::left(b),
        y: block::top(b),
        width: block::width(b),
        height: block::height(b),
        border_thickness: block::border(b),
    }
}

// A shadow's own numbers.
fn shadow_of(b: &[u8]) -> Shadow
    ensures { result ≡ Layer.shadow_of b.now }
{
    Shadow {
        r: block::radius(b),
        blur: block::blur(b),
        color: block::colour(b),
        skip_inside: block::first_flag(b),
    }
}

// A straight copy's own numbers, a scaled copy's and a genie's.
fn blit_of(b: &[u8]) -> Blit
    ensures { result ≡ Layer.blit_of b.now }
{
    Blit {
        x: block::x(b),
        y: block::y(b),
        r: block::radius(b),
        alpha: block::alpha(b),
        dim: block::dim(b),
    }
}

fn stretch_of(b: &[u8]) -> Stretch
    ensures { result ≡ Layer.stretch_of b.now }
{
    let dest = block::rect(b);
    Stretch {
        dest,
        r: block::radius(b),
        alpha: block::float_alpha(b),
    }
}

fn flight_of(b: &[u8]) -> Flight
    ensures { result ≡ Layer.flight_of b.now }
{
    let from = block::rect(b);
    let target = block::target(b);
    Flight {
        from,
        target,
        t: block::time(b),
        alpha: block::float_alpha(b),
    }
}

// A layer of each kind.

fn fill_layer(b: &[u8], px: &mut [u32], size: Size)
    ensures { px.new ≡ Layer.filled size.w size.h b.now px.old }
{
    fill::fill_rrect(
        px,
        size,
        block::clip(b),
        block::rect(b),
        block::radius(b),
        block::paint(b),
    );
}

fn stroke_layer(b: &[u8], px: &mut [u32], size: Size)
    ensures { px.new ≡ Layer.stroked size.w size.h b.now px.old }
{
    stroke::stroke_rrect(
        px,
        size,
        block::clip(b),
        block::rect(b),
        block::radius(b),
        block::stroke_width(b),
        block::colour(b),
    );
}

fn shadow_layer(b: &[u8], px: &mut [u32], size: Size)
    ensures { px.new ≡ Layer.shadowed size.w size.h b.now px.old }
{
    shadow::shadow_rrect(px, size, block::clip(b), block::rect(b), shadow_of(b));
}

fn glass_layer(b: &[u8], px: &mut [u32], size: Size, first: &mut [u8], second: &mut [u8])
    ensures canvas { px.new ≡ glazed_in size.w size.h b.now (length first.old) (length second.old) px.old }
    ensures first { first.new ≡ glazed_first size.w size.h b.now px.old first.old (length second.old) }
    ensures second { Kept (glazed_used size.w size.h b.now (length px.old) (length first.old) (length second.old)) second.old second.new }
{
    let table = block::entries(b);
    let rect = block::rect(b);
    let style = style_of(b);
    let pane = Pane { rect, style };
    glass::glass(px, size, block::clip(b), pane, &table, first, second);
}

fn straight_layer(b: &[u8], px: &mut [u32], size: Size, sources: Sources)
    ensures { px.new ≡ Layer.copied_onto size.w size.h sources.entry.table.now sources.entry.pool.now b.now px.old }
{
    let (src, sides) = sources.of_block(b);
    straight::blit_rounded_dim(px, size, block::clip(b), src, sides, blit_of(b));
}

fn scaled_layer(b: &[u8], px: &mut [u32], size: Size, sources: Sources)
    ensures { px.new ≡ Layer.stretched size.w size.h sources.entry.table.now sources.entry.pool.now b.now px.old }
{
    let (src, sides) = sources.of_block(b);
    scaled::blit_scaled(px, size, block::clip(b), src, sides, stretch_of(b));
}

fn genie_layer(b: &[u8], px: &mut [u32], size: Size, sources: Sources)
    ensures { px.new ≡ Layer.drawn size.w size.h sources.entry.table.now sources.entry.pool.now b.now px.old }
{
    let (src, sides) = sources.of_block(b);
    genie::blit_genie(px, size, block::clip(b), src, sides, flight_of(b));
}

fn frame_layer(b: &[u8], px: &mut [u32], size: Size)
    ensures { px.new ≡ Layer.framed size.w size.h b.now px.old }
{
    let s = surface_of(b);
    s.composite_secure_frame(
        px,
        size,
        block::tag(b),
        block::first_flag(b),
        block::second_flag(b),
    );
}

// The layer of a block on a canvas of this size. first and second are scratch, which glass alone uses: where one is too
// short nothing changes.
pub fn paint(
    b: &[u8],
    px: &mut [u32],
    size: Size,
    sources: Sources,
    first: &mut [u8],
    second: &mut [u8],
)
    ensures canvas { px.new ≡ Layer.painting_in size.w size.h sources.entry.table.now sources.entry.pool.now (length first.old) (length second.old) b.now px.old }
    ensures first { first.new ≡ Layer.first_after size.w size.h b.now px.old first.old (length second.old) }
    ensures second { Kept (Layer.second_used size.w size.h b.now (length px.old) (length first.old) (length second.old)) second.old second.new }
{
    match block::kind_of(b) {
        Some(Kind::Fill) => fill_layer(b, px, size),
        Some(Kind::Stroke) => stroke_layer(b, px, size),
        Some(Kind::Shadow) => shadow_layer(b, px, size),
        Some(Kind::Glass) => glass_layer(b, px, size, first, second),
        Some(Kind::Straight) => straight_layer(b, px, size, sources),
        Some(Kind::Scaled) => scaled_layer(b, px, size, sources),
        Some(Kind::Genie) => genie_layer(b, px, size, sources),
        Some(Kind::Frame) => frame_layer(b, px, size),
        None => {}
    }
}

// How many bytes of each scratch slice a block's layer needs.
#[tactic(auto, unfolding(crate::specs::Layer::needed, crate::specs::Layer::need_by, block::specs::Fields::kind_of))]
pub fn need_block(b: &[u8], size: Size) -> usize
    ensures { result ≡ Layer.needed size.w size.h b.now }
{
    match block::kind_of(b) {
        Some(Kind::Glass) => {
            let table = block::entries(b);
            backdrop::need(size, block::clip(b), block::rect(b), style_of(b), &table)
        }
        _ => 0,
    }
}

// The same of block n of the buffer; none where it does not lie in it whole.
pub fn need(buf: &[u8], n: usize, size: Size) -> usize
    ensures { result ≡ Layer.needed size.w size.h (block_at buf.now n) }
{
    if n < buf.len() / 512 {
        return need_block(&buf[512 * n..512 * n + 512], size);
    }
    0
}
