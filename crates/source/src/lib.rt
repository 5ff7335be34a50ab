// A source as one value. Each method calls the copy of its name, which every other caller uses, too.
// Each copy has a method and a function of its own, by its name, since callers know them so.
#![tactic(auto)]

ghost use Rattle.std.specs.Prelude.{◌≡◌};
ghost use Rattle.canvas.specs.Canvas.{painted_on};
ghost use Rattle.straight.specs.Straight.{straight_rule};
ghost use Rattle.scaled.specs.Scaled.{scaled_rule};
ghost use Rattle.genie.specs.Genie.{genied};

use canvas::Size;
use genie::Flight;
use geom::IRect;
use scaled::Stretch;
use sources::Sides;
use straight::Blit;

// The pixels, row by row, with the width and the height, which the methods' clauses name apart.
#[derive(Clone, Copy)]
pub struct Source<'a> {
    pub px: &'a [u32],
    pub w: usize,
    pub h: usize,
}

impl<'a> Source<'a> {
    fn sides(self) -> Sides
        ensures { result ≡ record { w = self.entry.w; h = self.entry.h } }
    {
        Sides {
            w: self.w,
            h: self.h,
        }
    }

    // Pixel by pixel, under a mask with rounded corners.
    pub fn blit_rounded_dim(self, px: &mut [u32], size: Size, clip: IRect, blit: Blit)
        ensures { px.new ≡ painted_on size.w size.h (straight_rule size.w size.h clip self.entry.px.now (record { w = self.entry.w; h = self.entry.h }) blit) px.old }
    {
        straight::blit_rounded_dim(px, size, clip, self.px, self.sides(), blit);
    }

    // Stretched into a rectangle.
    pub fn blit_scaled(self, px: &mut [u32], size: Size, clip: IRect, stretch: Stretch)
        ensures { px.new ≡ painted_on size.w size.h (scaled_rule size.w size.h clip self.entry.px.now (record { w = self.entry.w; h = self.entry.h }) stretch) px.old }
    {
        scaled::blit_scaled(px, size, clip, self.px, self.sides(), stretch);
    }

    // On its way from a rectangle to a point.
    pub fn blit_genie(self, px: &mut [u32], size: Size, clip: IRect, flight: Flight)
        ensures { px.new ≡ genied size.w size.h clip self.entry.px.now (record { w = self.entry.w; h = self.entry.h }) flight px.old }
    {
        genie::blit_genie(px, size, clip, self.px, self.sides(), flight);
    }
}

// The three methods on a source that is put together here, for callers that have its pixels, width and
// height.
pub fn copy_rounded_dim(
    px: &mut [u32],
    size: Size,
    clip: IRect,
    src: &[u32],
    sw: usize,
    sh: usize,
    blit: Blit,
)
    ensures { px.new ≡ painted_on size.w size.h (straight_rule size.w size.h clip src.now (record { w = sw; h = sh }) blit) px.old }
{
    Source {
        px: src,
        w: sw,
        h: sh,
    }
    .blit_rounded_dim(px, size, clip, blit);
}

pub fn copy_scaled(
    px: &mut [u32],
    size: Size,
    clip: IRect,
    src: &[u32],
    sw: usize,
    sh: usize,
    stretch: Stretch,
)
    ensures { px.new ≡ painted_on size.w size.h (scaled_rule size.w size.h clip src.now (record { w = sw; h = sh }) stretch) px.old }
{
    Source {
        px: src,
        w: sw,
        h: sh,
    }
    .blit_scaled(px, size, clip, stretch);
}

pub fn copy_genie(
    px: &mut [u32],
    size: Size,
    clip: IRect,
    src: &[u32],
    sw: usize,
    sh: usize,
    flight: Flight,
)
    ensures { px.new ≡ genied size.w size.h clip src.now (record { w = sw; h = sh }) flight px.old }
{
    Source {
        px: src,
        w: sw,
        h: sh,
    }
    .blit_genie(px, size, clip, flight);
}
