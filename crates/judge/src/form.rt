// Test 5: the kind, the flag bits, and the bytes that a kind does not use.
ghost use Rattle.std.specs.Prelude.{◌≡◌, ◌≤◌, eqb};
ghost use Rattle.block.specs.Fields as Fields;
ghost use Rattle.block.specs.Form.{well_formed, known as known_form, flags_in, unused_zero, flag_bits};
ghost use Rattle.judge.specs.Private.{zeros, clear, InOrder, Gaps};

use block::Kind;
use block::layout::{
    ALPHA, BLUR, CHECK, CLIP, COLOUR, F_ALPHA, FLAGS, NUMBERS, PAINT, RADIUS, RECT, SATURATION,
    SECOND, SOURCE, STROKE, TABLE, TAG, TIME, WIDTH, X,
};

// Five runs of bytes one behind the other, each from a byte on and before another; where there are fewer the last ones
// are empty, so that there is no count to test.
#[derive(Clone, Copy)]
pub struct Runs {
    pub(super) at: [(usize, usize); 5],
    ghost in_order: { InOrder at },
}

// The run behind the clip, and the run of no bytes.
const REST: (usize, usize) = (SECOND, CHECK);

const NO_RUN: (usize, usize) = (CHECK, CHECK);

impl Runs {
    // The bytes of the runs are all zero. They are joined before the one test, which most blocks pass; and written out, since
    // a fold over the five would need an invariant for what is one line.
    pub(super) fn all_zero(&self, b: &[u8; 508]) -> bool
        ensures { result ≡ clear b.now self.now.at }
    {
        let [(s0, e0), (s1, e1), (s2, e2), (s3, e3), (s4, e4)] = self.at;
        any(b, s0, e0) | any(b, s1, e1) | any(b, s2, e2) | any(b, s3, e3) | any(b, s4, e4) == 0
    }
}

// The bytes from `from` on and before `to` in one: 0 where they are all zero.
fn any(b: &[u8; 508], from: usize, to: usize) -> u8
    requires { (from ≤ to) × (to ≤ 508) }
    ensures { eqb result 0 ≡ zeros b.now from to }
{
    let mut s = 0;
    for byte in &b[from..to] {
        s |= *byte;
    }
    s
}

// The kind is known, and a fill's paint and a frame's tag.
#[tactic(auto, unfolding(block::specs::Form::known, block::specs::Fields::kind_of))]
fn known(b: &[u8; 508]) -> bool
    ensures { result ≡ known_form (Fields.kind b.now) (Fields.paint b.now) (Fields.tag b.now) }
{
    match block::kind_of(b) {
        None => false,
        Some(Kind::Fill) => b[PAINT] < 4,
        Some(Kind::Frame) => b[TAG] < 7,
        Some(_) => true,
    }
}

#[tactic(auto, unfolding(block::specs::Form::flag_bits, block::specs::Fields::kind_of))]
fn flag_bits(b: &[u8; 508]) -> u8
    ensures { result ≡ flag_bits (Fields.kind b.now) }
{
    match block::kind_of(b) {
        Some(Kind::Shadow) => 1,
        Some(Kind::Frame) => 3,
        _ => 0,
    }
}

// No flag bit is set but those of the kind.
#[tactic(auto, unfolding(block::specs::Form::flags_in))]
fn flags_in(b: &[u8; 508]) -> bool
    ensures { result ≡ flags_in (Fields.kind b.now) (Fields.flags b.now) }
{
    b[FLAGS] & flag_bits(b) == b[FLAGS]
}

// The bytes that a fill does not use: behind the second colour and the numbers that its paint has. The paint goes by its
// number, since to build the paint reads colours and numbers that are not asked for here.
fn fill_gaps(p: u8) -> [(usize, usize); 5]
    ensures { Gaps 1 p result }
{
    let last = match p {
        1 => NUMBERS + 8,
        2 => NUMBERS + 16,
        3 => NUMBERS + 12,
        _ => SECOND,
    };
    [
        (SOURCE, PAINT),
        (PAINT + 1, RECT),
        (BLUR, COLOUR),
        (SATURATION, CLIP),
        (last, CHECK),
    ]
}

// The bytes that a block of its kind does not use.
pub(super) fn gaps(b: &[u8; 508]) -> Runs
    ensures { Gaps (Fields.kind b.now) (Fields.paint b.now) result.at }
{
    Runs { at: unused(b) }
}

fn unused(b: &[u8; 508]) -> [(usize, usize); 5]
    ensures { Gaps (Fields.kind b.now) (Fields.paint b.now) result }
{
    match block::kind_of(b) {
        Some(Kind::Fill) => fill_gaps(b[PAINT]),
        Some(Kind::Stroke) => [
            (SOURCE, RECT),
            (BLUR, COLOUR),
            (SATURATION, STROKE),
            (TABLE, CLIP),
            REST,
        ],
        Some(Kind::Shadow) => [(SOURCE, RECT), (SATURATION, CLIP), REST, NO_RUN, NO_RUN],
        Some(Kind::Glass) => [(SOURCE, RECT), (ALPHA, TABLE), REST, NO_RUN, NO_RUN],
        Some(Kind::Straight) => [
            (WIDTH, RADIUS),
            (BLUR, ALPHA),
            (F_ALPHA, CLIP),
            REST,
            NO_RUN,
        ],
        Some(Kind::Scaled) => [(X, RECT), (BLUR, F_ALPHA), (TIME, CLIP), REST, NO_RUN],
        Some(Kind::Genie) => [(X, RECT), (RADIUS, F_ALPHA), (STROKE, CLIP), REST, NO_RUN],
        Some(Kind::Frame) => [(SOURCE, X), (PAINT, CLIP), REST, NO_RUN, NO_RUN],
        None => [(SOURCE, CLIP), REST, NO_RUN, NO_RUN, NO_RUN],
    }
}

// Test 5, by what was found of the unused bytes.
#[tactic(auto, unfolding(block::specs::Form::well_formed))]
pub(super) fn well_formed(b: &[u8; 508], unused: bool) -> bool
    requires { unused ≡ unused_zero (Fields.kind b.now) (Fields.paint b.now) b.now }
    ensures { result ≡ well_formed b.now }
{
    known(b) & (flags_in(b) & unused)
}
