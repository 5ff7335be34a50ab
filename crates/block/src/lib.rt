// A layer's block: 512 bytes of a rundown, read where they lie. What its bytes say, and by which definitions they are
// tested; the tests themselves are in `judge`.
#![tactic(auto)]

mod fields;
pub mod layout;

ghost use Rattle.std.specs.Prelude.{◌≡◌, ◌+◌, ◌*◌};
ghost use Rattle.block.specs.Bytes.{block_at};
ghost use Rattle.block.specs.Fields.{priority, Names};

pub use fields::{
    alpha, bezel, blur, border, brightness, clip, colour, dim, entries, entry, first_flag,
    float_alpha, height, kind_byte, kind_of, left, paint, priority, radius, rect, saturation,
    second_flag, source, spec, stroke_width, tag, target, time, top, width, x, y,
};

// What a layer is, by the number in its block.
#[derive(Clone, Copy, PartialEq, Eq)]
pub enum Kind {
    Fill = 1,
    Stroke = 2,
    Shadow = 3,
    Glass = 4,
    Straight = 5,
    Scaled = 6,
    Genie = 7,
    Frame = 8,
}

// A number that is no kind's.
#[derive(Clone, Copy)]
pub struct UnknownKind;

impl TryFrom<u8> for Kind {
    type Error = UnknownKind;

    ghost try_from_gives = { Names };

    #[tactic(auto, unfolding(crate::specs::Fields::kind_of))]
    fn try_from(k: u8) -> Result<Self, UnknownKind> {
        match k {
            1 => Ok(Kind::Fill),
            2 => Ok(Kind::Stroke),
            3 => Ok(Kind::Shadow),
            4 => Ok(Kind::Glass),
            5 => Ok(Kind::Straight),
            6 => Ok(Kind::Scaled),
            7 => Ok(Kind::Genie),
            8 => Ok(Kind::Frame),
            _ => Err(UnknownKind),
        }
    }
}

// Block n, where it lies in the buffer whole; else no bytes. A caller that knows that it lies there, and reads many of its
// fields, cuts it out itself: then the compiler knows that it has 512 bytes, and no byte's place is tested.
pub fn at(buf: &[u8], n: usize) -> &[u8]
    ensures { result.now ≡ block_at buf.now n }
{
    if n < buf.len() / 512 {
        return &buf[512 * n..512 * n + 512];
    }
    &[]
}

// Block n's priority, 0 where it does not lie in the buffer whole: `Bytes.byte` has 0 for a byte that is not there.
pub fn priority_at(buf: &[u8], n: usize) -> u16
    ensures { result ≡ priority (block_at buf.now n) }
{
    fields::priority(at(buf, n))
}
