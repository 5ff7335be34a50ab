// The tests of one block exported to C: the functions of `c_blocks`, by their names, each with its contract.
// A verdict goes out as one number, since C's signatures have it so.
#![tactic(auto)]

ghost use Rattle.std.specs.Prelude.{◌≡◌};
ghost use Rattle.block.specs.Bytes.{block_at, placed};
ghost use Rattle.block.specs.Verdict.{verdict};
ghost use Rattle.answer.specs.Answer.{packed};
ghost use Rattle.answer.specs.Tests.{at};

// Tests 4 to 7 and 15 of the block at the buffer's front.
#[unsafe(no_mangle)]
pub extern "C" fn block_judge(buf: &[u8]) -> u64
    ensures { result ≡ packed (at 0 (verdict (block_at buf.now 0))) }
{
    c_blocks::block_judge(buf)
}

// The same of the block that begins at byte `place`, which may be any.
#[unsafe(no_mangle)]
pub extern "C" fn block_judge_at(buf: &[u8], place: usize) -> u64
    ensures { result ≡ packed (at 0 (verdict (placed buf.now place))) }
{
    c_blocks::block_judge_at(buf, place)
}
