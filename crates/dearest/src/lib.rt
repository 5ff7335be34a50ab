// The dearest panel, for whoever buys machines: the worst that a designer can do with a blur on a canvas.
#![tactic(auto)]

ghost use Rattle.std.specs.Prelude.{◌≡◌, true, false, ◌+◌, ◌*◌, ◌≤◌, ◌++◌, take, drop};
ghost use Rattle.std.specs.Float.Ieee.{is_nan};
ghost use Rattle.canvas.specs.Canvas.{is_canvas};
ghost use Rattle.rundown.specs.Kept.{bytes_of};
ghost use Rattle.dearest.specs.Dearest.{dearest_need, dearest_body, blur_test, dearest_answer, block_after};

use answer::{Answer, Cause};
use block::{Kind, layout};
use canvas::Size;

// Where in a rect or a clip its third and its fourth number stand.
const FAR_ACROSS: usize = 8;

const FAR_DOWN: usize = 12;

// Test 6, of the blur alone. A NaN fails both comparisons: they stand here, since `contains` would not show it. The 0 that
// nobody reads is the definition's.
#[tactic(auto, unfolding(crate::specs::Dearest::blur_test, block::specs::Ranges::within))]
fn test_blur(blur: f32) -> Answer
    ensures { result ≡ blur_test blur }
{
    if 0.0 <= blur && blur <= 64.0 {
        return Ok(0);
    }
    Err(Cause::Floats.at(0))
}

// What each scratch slice has to have. The product stands in forecast and backdrop, too: a function for it would have to
// ask that the sides are small, and none that another crate can call asks for anything. A `Size` is of any sides, since a
// caller's are tested.
fn need(size: Size, blur: f32) -> usize
    requires { is_canvas size.w size.h (size.w * size.h) ≡ true }
    ensures { result ≡ dearest_need size.w size.h blur }
{
    let k = backdrop::scale(blur);
    let columns = backdrop::cells(size.w, k);
    let rows = backdrop::cells(size.h, k);
    3 * (columns * rows)
}

// The four bytes of v into b from byte `at` on, the low one first.
#[tactic(auto, unfolding(rundown::specs::Kept::bytes_of))]
fn put(b: &mut [u8; 508], at: usize, v: u32)
    requires { at + 4 ≤ 508 }
    ensures { b.new ≡ take at b.old ++ (bytes_of v ++ drop (at + 4) b.old) }
{
    b[at..at + 4].copy_from_slice(&v.to_le_bytes());
}

// The panel's 508 bytes: its rect and its clip begin at column and row 0, and are as wide and high as a canvas may be. What
// is 0 is not written. The last field comes first, as the definition puts one word over the other.
fn body(blur: f32) -> [u8; 508]
    requires { is_nan blur ≡ false }
    ensures { result ≡ dearest_body blur }
{
    let mut b = [0u8; 508];
    b[layout::KIND] = Kind::Glass as u8;
    put(&mut b, layout::CLIP + FAR_DOWN, 4096);
    put(&mut b, layout::CLIP + FAR_ACROSS, 4096);
    put(&mut b, layout::SATURATION, f32::to_bits(1.0));
    put(&mut b, layout::BLUR, f32::to_bits(blur));
    put(&mut b, layout::RECT + FAR_DOWN, f32::to_bits(4096.0));
    put(&mut b, layout::RECT + FAR_ACROSS, f32::to_bits(4096.0));
    b
}

// One glass layer that needs the most scratch of all with this blur on a canvas of this size, into `block`; the answer is
// its need in each slice. A side that is not 1 to 4096 is cause 1, then a blur that is not 0 to 64 cause 6, and the 512
// bytes are as they were. Which such layer is shown is free: callers may rest on the laws `shown`, `plays` and `most` of
// proofs/Laws, and not on the bytes.
pub fn dearest(size: Size, blur: f32, block: &mut [u8; 512]) -> Answer
    ensures answer { result ≡ dearest_answer size.w size.h blur }
    ensures block { block.new ≡ block_after size.w size.h blur block.old }
{
    accept::test_sides(size)?;
    test_blur(blur)?;
    rundown::seal(&body(blur), block);
    Ok(need(size, blur))
}
