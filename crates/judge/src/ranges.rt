// Tests 6, 7 and 15: floats and integers out of their ranges, tables that do not suit their bezel. A block's tests are all
// made, one after the other and without a branch, since most blocks pass them.
ghost use Rattle.std.specs.Prelude.{◌≡◌, ◌&&◌, ◌+◌, ◌*◌, ◌≤◌, ◌<◌, length, leb};
ghost use Rattle.block.specs.Fields as Fields;
ghost use Rattle.block.specs.Ranges as Ranges;

use block::Kind;
use fill::Paint;

// The float v, from lo to hi. Floats, integers with a sign and those without have an order each, and so no function in
// common.
#[tactic(auto, unfolding(block::specs::Ranges::within))]
fn within(v: f32, lo: f32, hi: f32) -> bool
    ensures { result ≡ Ranges.within lo hi v }
{
    (lo <= v) & (v <= hi)
}

// The ranges have names, as in the definitions: a place and a size, a coordinate and an offset.
fn place_in(v: f32) -> bool
    ensures { result ≡ Ranges.place v }
{
    within(v, -16384.0, 16384.0)
}

fn size_in(v: f32) -> bool
    ensures { result ≡ Ranges.size v }
{
    within(v, 0.0, 16384.0)
}

#[tactic(auto, unfolding(block::specs::Ranges::rect_in, block::specs::Fields::rect))]
fn rect_in(b: &[u8; 508]) -> bool
    ensures { result ≡ Ranges.rect_in b.now }
{
    let rect = block::rect(b);
    place_in(rect.x) & place_in(rect.y) & size_in(rect.w) & size_in(rect.h)
}

#[tactic(auto, unfolding(block::specs::Ranges::radius_in))]
fn radius_in(b: &[u8; 508]) -> bool
    ensures { result ≡ Ranges.radius_in b.now }
{
    within(block::radius(b), 0.0, 8192.0)
}

#[tactic(auto, unfolding(block::specs::Ranges::numbers_in, block::specs::Fields::paint_of, fill::specs::Paint::of_number))]
fn numbers_in(b: &[u8; 508]) -> bool
    ensures { result ≡ Ranges.numbers_in (Fields.paint b.now) b.now }
{
    match block::paint(b) {
        Paint::Solid(_) => true,
        Paint::VGrad { y0, y1, .. } => place_in(y0) & place_in(y1),
        Paint::Linear { p0, p1, .. } => {
            place_in(p0.x) & place_in(p0.y) & place_in(p1.x) & place_in(p1.y)
        }
        Paint::Radial { c, r, .. } => place_in(c.x) & place_in(c.y) & size_in(r),
    }
}

// The two walks over the table have no early end, so that the compiler takes several entries at a time. One walk that
// takes the test as a closure would be no shorter, and its contract would speak of every closure.
#[tactic(auto, unfolding(block::specs::Ranges::table_in))]
fn table_in(b: &[u8; 508]) -> bool
    ensures { result ≡ Ranges.table_in b.now }
{
    let mut all = true;
    for i in 0..33 {
        all &= within(block::entry(b, i), 0.0, 1024.0);
    }
    all & (block::entry(b, 32) == 0.0)
}

// The table counts only where the bezel exceeds 0.5.
#[tactic(auto, unfolding(block::specs::Ranges::glass_floats, block::specs::Ranges::glass_scalars))]
fn glass_floats(b: &[u8; 508]) -> bool
    ensures { result ≡ Ranges.glass_floats b.now }
{
    let shape = rect_in(b) & radius_in(b) & within(block::blur(b), 0.0, 64.0);
    let tone = within(block::saturation(b), 0.0, 8.0) & within(block::brightness(b), -1.0, 1.0);
    let bezel = block::bezel(b);
    let scalars = shape & tone & within(bezel, 0.0, 256.0) & within(block::spec(b), 0.0, 1.0);
    if bezel > 0.5 {
        return scalars & table_in(b);
    }
    scalars
}

#[tactic(auto, unfolding(block::specs::Ranges::genie_floats))]
fn genie_floats(b: &[u8; 508]) -> bool
    ensures { result ≡ Ranges.genie_floats b.now }
{
    let to = block::target(b);
    rect_in(b)
        & place_in(to.x)
        & place_in(to.y)
        & within(block::time(b), 0.0, 1.0)
        & within(block::float_alpha(b), 0.0, 1.0)
}

#[tactic(auto, unfolding(block::specs::Ranges::fill_floats))]
fn fill_floats(b: &[u8; 508]) -> bool
    ensures { result ≡ Ranges.fill_floats b.now }
{
    rect_in(b) & radius_in(b) & numbers_in(b)
}

#[tactic(auto, unfolding(block::specs::Ranges::stroke_floats))]
fn stroke_floats(b: &[u8; 508]) -> bool
    ensures { result ≡ Ranges.stroke_floats b.now }
{
    rect_in(b) & radius_in(b) & within(block::stroke_width(b), 0.0, 256.0)
}

#[tactic(auto, unfolding(block::specs::Ranges::shadow_floats))]
fn shadow_floats(b: &[u8; 508]) -> bool
    ensures { result ≡ Ranges.shadow_floats b.now }
{
    rect_in(b) & radius_in(b) & within(block::blur(b), 0.0, 256.0)
}

#[tactic(auto, unfolding(block::specs::Ranges::scaled_floats))]
fn scaled_floats(b: &[u8; 508]) -> bool
    ensures { result ≡ Ranges.scaled_floats b.now }
{
    rect_in(b) & radius_in(b) & within(block::float_alpha(b), 0.0, 1.0)
}

#[tactic(auto, unfolding(block::specs::Ranges::floats_in, block::specs::Fields::kind_of))]
pub(super) fn floats_in(b: &[u8; 508]) -> bool
    ensures { result ≡ Ranges.floats_in b.now }
{
    match block::kind_of(b) {
        Some(Kind::Fill) => fill_floats(b),
        Some(Kind::Stroke) => stroke_floats(b),
        Some(Kind::Shadow) => shadow_floats(b),
        Some(Kind::Glass) => glass_floats(b),
        Some(Kind::Straight) => radius_in(b),
        Some(Kind::Scaled) => scaled_floats(b),
        Some(Kind::Genie) => genie_floats(b),
        Some(Kind::Frame) | None => true,
    }
}

// The integer v, from lo to hi.
#[tactic(auto, unfolding(block::specs::Ranges::between))]
fn between(v: i32, lo: i32, hi: i32) -> bool
    ensures { result ≡ Ranges.between lo hi v }
{
    (lo <= v) & (v <= hi)
}

fn coordinate_in(v: i32) -> bool
    ensures { result ≡ Ranges.coordinate v }
{
    between(v, -16384, 16384)
}

fn offset_in(v: i32) -> bool
    ensures { result ≡ Ranges.offset v }
{
    between(v, 0, 16384)
}

#[tactic(auto, unfolding(block::specs::Ranges::clip_in, block::specs::Fields::clip))]
fn clip_in(b: &[u8; 508]) -> bool
    ensures { result ≡ Ranges.clip_in b.now }
{
    let clip = block::clip(b);
    coordinate_in(clip.x0)
        & coordinate_in(clip.y0)
        & coordinate_in(clip.x1)
        & coordinate_in(clip.y1)
}

#[tactic(auto, unfolding(block::specs::Ranges::straight_integers))]
fn straight_integers(b: &[u8; 508]) -> bool
    ensures { result ≡ Ranges.straight_integers b.now }
{
    coordinate_in(block::x(b))
        & coordinate_in(block::y(b))
        & (block::alpha(b) <= 255)
        & (block::dim(b) <= 255)
}

#[tactic(auto, unfolding(block::specs::Ranges::frame_integers))]
fn frame_integers(b: &[u8; 508]) -> bool
    ensures { result ≡ Ranges.frame_integers b.now }
{
    offset_in(block::x(b))
        & offset_in(block::y(b))
        & (block::width(b) <= 4096)
        & (block::height(b) <= 4096)
        & (block::border(b) <= 4096)
}

#[tactic(auto, unfolding(block::specs::Ranges::integers_in, block::specs::Fields::kind_of))]
pub(super) fn integers_in(b: &[u8; 508]) -> bool
    ensures { result ≡ Ranges.integers_in b.now }
{
    match block::kind_of(b) {
        Some(Kind::Straight) => clip_in(b) & straight_integers(b),
        Some(Kind::Frame) => clip_in(b) & frame_integers(b),
        _ => clip_in(b),
    }
}

// Each entry beside the most that the bezel allows, a product that is rounded once.
#[tactic(auto, unfolding(block::specs::Ranges::table_suits))]
fn table_suits(b: &[u8; 508]) -> bool
    ensures { result ≡ Ranges.table_suits b.now }
{
    let most = block::bezel(b) * 1.6;
    let mut all = true;
    for i in 0..33 {
        all &= block::entry(b, i) <= most;
    }
    all
}

// The table counts only where the bezel exceeds 0.5.
#[tactic(auto, unfolding(block::specs::Ranges::bend_suits, block::specs::Fields::kind_of))]
pub(super) fn bend_suits(b: &[u8; 508]) -> bool
    ensures { result ≡ Ranges.bend_suits b.now }
{
    if (block::kind_of(b) == Some(Kind::Glass)) & (block::bezel(b) > 0.5) {
        return table_suits(b);
    }
    true
}
