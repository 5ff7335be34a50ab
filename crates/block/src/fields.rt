// The fields of a block, built for the painters from its bytes. A byte past the block's end counts as 0, so that a reader
// asks nothing of its caller. Each field has a reader of its own, so that a float cannot be read where a number stands.
ghost use Rattle.std.specs.Prelude.{◌≡◌, ◌+◌, ◌*◌, ◌≤◌, ◌<◌};
ghost use Rattle.block.specs.Bytes as Bytes;
ghost use Rattle.block.specs.Fields as Fields;

use super::{Kind, layout};
use color::Color;
use fill::Paint;
use geom::{IRect, Pt, Rect};
use std::array;
use std::num::f32_from_bits_with_nan;

// The byte at o.
fn byte(b: &[u8], o: usize) -> u8
    ensures { result ≡ Bytes.byte b.now o }
{
    b.get(o).copied().unwrap_or(0)
}

// One reader for each sort of number, a line over the bytes. o is a constant of `layout`, or an entry's place after one, so
// that its range needs no type.
#[tactic(auto, unfolding(crate::specs::Bytes::u32))]
fn word(b: &[u8], o: usize) -> u32
    requires { o ≤ 2048 }
    ensures { result ≡ Bytes.u32 b.now o }
{
    u32::from_le_bytes([byte(b, o), byte(b, o + 1), byte(b, o + 2), byte(b, o + 3)])
}

#[tactic(auto, using(crate::proofs::Laws::Signed::signed_is))]
fn int(b: &[u8], o: usize) -> i32
    requires { o ≤ 2048 }
    ensures { result ≡ Bytes.i32 b.now o }
{
    word(b, o).cast_signed()
}

#[tactic(auto, unfolding(crate::specs::Bytes::f32))]
fn float(b: &[u8], o: usize) -> f32
    requires { o ≤ 2048 }
    ensures { result ≡ Bytes.f32 b.now o }
{
    f32_from_bits_with_nan(word(b, o))
}

#[tactic(auto, unfolding(crate::specs::Fields::color_at))]
fn color_at(b: &[u8], o: usize) -> Color
    requires { o ≤ 2048 }
    ensures { result ≡ Fields.color_at b.now o }
{
    Color {
        r: byte(b, o),
        g: byte(b, o + 1),
        b: byte(b, o + 2),
        a: byte(b, o + 3),
    }
}

// The kind's number, whatever it is. Its name is not `kind`, since the check takes that and `Kind` for one.
pub fn kind_byte(b: &[u8]) -> u8
    ensures { result ≡ Fields.kind b.now }
{
    byte(b, layout::KIND)
}

// The block's kind; none where its number is no kind's.
pub fn kind_of(b: &[u8]) -> Option<Kind>
    ensures { result ≡ Fields.kind_of (Fields.kind b.now) }
{
    Kind::try_from(kind_byte(b)).ok()
}

// Bit 0 of the flags.
pub fn first_flag(b: &[u8]) -> bool
    ensures { result ≡ Fields.first_flag b.now }
{
    byte(b, layout::FLAGS) % 2 == 1
}

// Bit 1 of the flags.
pub fn second_flag(b: &[u8]) -> bool
    ensures { result ≡ Fields.second_flag b.now }
{
    byte(b, layout::FLAGS) / 2 % 2 == 1
}

#[tactic(auto, unfolding(crate::specs::Bytes::u16))]
pub fn priority(b: &[u8]) -> u16
    ensures { result ≡ Fields.priority b.now }
{
    u16::from_le_bytes([byte(b, layout::PRIORITY), byte(b, layout::PRIORITY + 1)])
}

pub fn source(b: &[u8]) -> u32
    ensures { result ≡ Fields.source b.now }
{
    word(b, layout::SOURCE)
}

pub fn x(b: &[u8]) -> i32
    ensures { result ≡ Fields.x b.now }
{
    int(b, layout::X)
}

pub fn y(b: &[u8]) -> i32
    ensures { result ≡ Fields.y b.now }
{
    int(b, layout::Y)
}

// A frame's x and y are never below zero.
pub fn left(b: &[u8]) -> u32
    ensures { result ≡ Fields.left b.now }
{
    word(b, layout::X)
}

pub fn top(b: &[u8]) -> u32
    ensures { result ≡ Fields.top b.now }
{
    word(b, layout::Y)
}

pub fn width(b: &[u8]) -> u32
    ensures { result ≡ Fields.width b.now }
{
    word(b, layout::WIDTH)
}

pub fn height(b: &[u8]) -> u32
    ensures { result ≡ Fields.height b.now }
{
    word(b, layout::HEIGHT)
}

pub fn border(b: &[u8]) -> u32
    ensures { result ≡ Fields.border b.now }
{
    word(b, layout::BORDER)
}

// A number, since it may name no domain: `frame` makes a `SecurityTag` of it.
pub fn tag(b: &[u8]) -> u8
    ensures { result ≡ Fields.tag b.now }
{
    byte(b, layout::TAG)
}

#[tactic(auto, unfolding(crate::specs::Fields::rect))]
pub fn rect(b: &[u8]) -> Rect
    ensures { result ≡ Fields.rect b.now }
{
    Rect {
        x: float(b, layout::RECT),
        y: float(b, layout::RECT + 4),
        w: float(b, layout::RECT + 8),
        h: float(b, layout::RECT + 12),
    }
}

pub fn radius(b: &[u8]) -> f32
    ensures { result ≡ Fields.radius b.now }
{
    float(b, layout::RADIUS)
}

pub fn blur(b: &[u8]) -> f32
    ensures { result ≡ Fields.blur b.now }
{
    float(b, layout::BLUR)
}

pub fn colour(b: &[u8]) -> Color
    ensures { result ≡ Fields.colour b.now }
{
    color_at(b, layout::COLOUR)
}

pub fn saturation(b: &[u8]) -> f32
    ensures { result ≡ Fields.saturation b.now }
{
    float(b, layout::SATURATION)
}

pub fn brightness(b: &[u8]) -> f32
    ensures { result ≡ Fields.brightness b.now }
{
    float(b, layout::BRIGHTNESS)
}

pub fn bezel(b: &[u8]) -> f32
    ensures { result ≡ Fields.bezel b.now }
{
    float(b, layout::BEZEL)
}

pub fn spec(b: &[u8]) -> f32
    ensures { result ≡ Fields.spec b.now }
{
    float(b, layout::SPEC)
}

pub fn alpha(b: &[u8]) -> u32
    ensures { result ≡ Fields.alpha b.now }
{
    word(b, layout::ALPHA)
}

pub fn dim(b: &[u8]) -> u32
    ensures { result ≡ Fields.dim b.now }
{
    word(b, layout::DIM)
}

pub fn float_alpha(b: &[u8]) -> f32
    ensures { result ≡ Fields.float_alpha b.now }
{
    float(b, layout::F_ALPHA)
}

pub fn time(b: &[u8]) -> f32
    ensures { result ≡ Fields.t b.now }
{
    float(b, layout::TIME)
}

pub fn target(b: &[u8]) -> Pt
    ensures { result ≡ Fields.target b.now }
{
    Pt {
        x: float(b, layout::TARGET),
        y: float(b, layout::TARGET + 4),
    }
}

pub fn stroke_width(b: &[u8]) -> f32
    ensures { result ≡ Fields.stroke_width b.now }
{
    float(b, layout::STROKE)
}

// Entry i of the table of displacements.
pub fn entry(b: &[u8], i: u8) -> f32
    ensures { result ≡ Fields.entry b.now i }
{
    float(b, layout::TABLE + 4 * usize::from(i))
}

// The table.
pub fn entries(b: &[u8]) -> [f32; 33]
    ensures { result ≡ Fields.entries b.now }
{
    array::from_fn(|i| entry(b, i as u8))
}

#[tactic(auto, unfolding(crate::specs::Fields::clip))]
pub fn clip(b: &[u8]) -> IRect
    ensures { result ≡ Fields.clip b.now }
{
    IRect {
        x0: int(b, layout::CLIP),
        y0: int(b, layout::CLIP + 4),
        x1: int(b, layout::CLIP + 8),
        y1: int(b, layout::CLIP + 12),
    }
}

#[tactic(auto, unfolding(crate::specs::Fields::paint_of))]
pub fn paint(b: &[u8]) -> Paint
    ensures { result ≡ Fields.paint_of b.now }
{
    Paint::of_number(
        u32::from(byte(b, layout::PAINT)),
        color_at(b, layout::COLOUR),
        color_at(b, layout::SECOND),
        float(b, layout::NUMBERS),
        float(b, layout::NUMBERS + 4),
        float(b, layout::NUMBERS + 8),
        float(b, layout::NUMBERS + 12),
    )
}
