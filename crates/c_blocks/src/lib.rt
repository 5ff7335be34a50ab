// The tests of one block, for C (by `c_blocks_c`) and Rust to call: a verdict goes out as the number
// that C knows. Of a crate the toolchain makes a library or an archive, so the exports are a crate of
// their own. Add and remove are in `tiglostrema`.
#![tactic(auto)]

ghost use Rattle.std.specs.Prelude.{◌≡◌};
ghost use Rattle.block.specs.Bytes.{block_at, placed};
ghost use Rattle.block.specs.Verdict.{verdict};
ghost use Rattle.answer.specs.Answer.{packed};
ghost use Rattle.answer.specs.Tests.{at};

// Tests 4 to 7 and 15 of the block at the buffer's front.
pub fn block_judge(buf: &[u8]) -> u64
    ensures { result ≡ packed (at 0 (verdict (block_at buf.now 0))) }
{
    block_judge_at(buf, 0)
}

// The same of the block that begins at byte `place`, which may be any. C has a name for either.
pub fn block_judge_at(buf: &[u8], place: usize) -> u64
    ensures { result ≡ packed (at 0 (verdict (placed buf.now place))) }
{
    answer::pack(answer::at(0, judge::judge_at(buf, place)))
}
