// Test 4: the sum of the bytes before the check, each times its place from 1 on.
ghost use Rattle.std.specs.Prelude.{◌≡◌, true, ◌+◌, ◌*◌, ◌≤◌, ◌<◌};
ghost use Rattle.block.specs.Bytes as Bytes;
ghost use Rattle.judge.specs.Private.{clear};

use super::form::Runs;
use block::layout::CHECK;

// The remainder changes nothing: it says that a place has few bits, and so four products are one instruction.
fn weight(i: usize, byte: u8) -> u32
    requires { i < 508 }
    ensures { (result ≡ (i + 1) * byte) × (result ≤ 129540) }
{
    (i as u32 + 1) % 512 * u32::from(byte)
}

// What the bytes from `from` on and before `to` add to the sum.
fn weighed_run(b: &[u8; 508], from: usize, to: usize) -> u32
    requires { (from ≤ to) × (to ≤ 508) }
    ensures { (Bytes.weighed b.now from + result ≡ Bytes.weighed b.now to) × (result ≤ 65806320) }
{
    let mut sum = 0;
    for i in from..to {
        sum += weight(i, b[i]);
    }
    sum
}

// The sum of the first 508 bytes, for a block whose unused bytes are not zero and for a new one.
#[tactic(auto, unfolding(block::specs::Bytes::weighed))]
pub(super) fn weighed(b: &[u8; 508]) -> u32
    ensures { result ≡ Bytes.weighed b.now 508 }
{
    weighed_run(b, 0, CHECK)
}

impl Runs {
    // The same where the runs are zero and so weigh nothing: of most blocks that is all but some fifty bytes. Six calls and
    // no loop, so that each has branches of its own, which the processor foretells.
    pub(super) fn weighed_outside(&self, b: &[u8; 508]) -> u32
        requires { clear b.now self.now.at ≡ true }
        ensures { result ≡ Bytes.weighed b.now 508 }
    {
        let [(s0, e0), (s1, e1), (s2, e2), (s3, e3), (s4, e4)] = self.at;
        weighed_run(b, 0, s0)
            + weighed_run(b, e0, s1)
            + weighed_run(b, e1, s2)
            + weighed_run(b, e2, s3)
            + weighed_run(b, e3, s4)
            + weighed_run(b, e4, CHECK)
    }
}
