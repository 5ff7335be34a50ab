// Reads a record of a painted layer, for the programs that replay them: 87 words, of which the last 64
// are the pixels that the Rust left. compare/common/src/record.rs writes them and says what each
// word holds. A record is handed on as its bytes: a struct around them would be opened in each of
// these functions. A cast by `as` loses nothing, and std has no From between u32 and usize.
#![tactic(auto)]

mod tally;

ghost use Rattle.std.specs.Prelude.{◌≡◌, ◌+◌, ◌*◌, ◌/◌, replicate};
ghost use Rattle.canvas.specs.Rows.{map_row};
ghost use Rattle.records.specs.Record as Record;

use canvas::Size;
use geom::{IRect, Rect};
use std::num::f32_from_bits_with_nan;
pub use tally::{
    Counts, Line, Replayed, count, read_next, read_part, read_whole, replay_all, replay_next,
    report, report_all,
};

// Word i of N bytes, the low byte first. There is none behind the last: it is taken as 0, since a
// word can't fail (`Record.word_of`).
#[tactic(auto, unfolding(crate::specs::Record::word_of))]
pub fn word<const N: usize>(rec: &[u8; N], i: usize) -> u32
    ensures { result ≡ Record.word_of (N / 4) rec.now i }
{
    if i >= N / 4 {
        return 0;
    }
    let at = i * 4;
    u32::from_le_bytes([rec[at], rec[at + 1], rec[at + 2], rec[at + 3]])
}

// Two words as one number.
pub fn pair(high: u32, low: u32) -> u64
    ensures { result ≡ high * 0x1_0000_0000 + low }
{
    u64::from(high) * 0x1_0000_0000 + u64::from(low)
}

// Word i as a float. A NaN, which no record has, is taken as 0, since a word can't fail
// (`Record.real`).
pub fn real(rec: &[u8; 348], i: usize) -> f32
    ensures { result ≡ Record.real rec.now i }
{
    let x = f32_from_bits_with_nan(word(rec, i));
    if x.is_nan() { 0.0 } else { x }
}

// Word i, a float, as a whole number.
pub fn whole(rec: &[u8; 348], i: usize) -> i32
    ensures { result ≡ Record.whole rec.now i }
{
    mathf::to_i32(real(rec, i))
}

// The canvas's sides.
pub fn size_of(rec: &[u8; 348]) -> Size
    ensures { (result.w ≡ Record.word rec.now 1) × (result.h ≡ Record.word rec.now 2) }
{
    Size {
        w: word(rec, 1) as usize,
        h: word(rec, 2) as usize,
    }
}

pub fn clip_of(rec: &[u8; 348]) -> IRect
    ensures { result ≡ Record.clip rec.now }
{
    IRect {
        x0: whole(rec, 3),
        y0: whole(rec, 4),
        x1: whole(rec, 5),
        y1: whole(rec, 6),
    }
}

pub fn rect_of(rec: &[u8; 348]) -> Rect
    ensures { result ≡ Record.rect rec.now }
{
    Rect {
        x: real(rec, 7),
        y: real(rec, 8),
        w: real(rec, 9),
        h: real(rec, 10),
    }
}

// Pixels as they were: each is the one before it plus the step, wrapped.
pub fn start(px: &mut [u32], first: u32, step: u32)
    ensures { px.new ≡ map_row (λ i p. Record.pixel first step i) px.old }
{
    let mut v = first;
    for p in px {
        *p = v;
        v = v.wrapping_add(step);
    }
}

// N pixels as they were.
pub fn started<const N: usize>(first: u32, step: u32) -> [u32; N]
    ensures { result ≡ map_row (λ i p. Record.pixel first step i) (replicate N 0) }
{
    let mut px = [0u32; N];
    start(&mut px, first, step);
    px
}

// Whether the canvas has the recorded pixels.
#[tactic(auto, unfolding(crate::specs::Record::recorded))]
pub fn is_recorded(px: &[u32; 64], rec: &[u8; 348]) -> bool
    ensures { result ≡ Record.recorded rec.now px.now 64 }
{
    (0..64).all(|i| px[i] == word(rec, 23 + i))
}

// The sum of the first 2048 bytes, each times its place from 1 on: bytes that were left, in one number.
pub fn sum(b: &[u8]) -> u32
    ensures { result ≡ Record.sum b.now }
{
    let mut sum: u32 = 0;
    for (i, v) in b[..b.len().min(2048)].iter().enumerate() {
        sum += (i as u32 + 1) * u32::from(*v);
    }
    sum
}
