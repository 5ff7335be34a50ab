// The tests 4 to 7 and 15 of one block, in their order. A block is read where it lies in the buffer.
#![tactic(auto)]

mod check;
mod form;
mod ranges;

ghost use Rattle.std.specs.Prelude.{◌≡◌, ◌+◌, ◌*◌, ◌≤◌, length};
ghost use Rattle.block.specs.Bytes as Bytes;
ghost use Rattle.block.specs.Bytes.{placed, block_at};
ghost use Rattle.block.specs.Fields as Fields;
ghost use Rattle.block.specs.Form.{unused_zero};
ghost use Rattle.block.specs.Verdict.{shape, verdict};

use answer::{Cause, Verdict};

// Block n of the buffer by the tests 4 to 7 and 15. One that does not lie in the buffer whole has no kind.
pub fn judge(buf: &[u8], n: usize) -> Verdict
    ensures { result ≡ verdict (block_at buf.now n) }
{
    judge_at(block::at(buf, n), 0)
}

// The same of the block that begins at byte `at`, which may be any.
pub fn judge_at(buf: &[u8], at: usize) -> Verdict
    ensures { result ≡ verdict (placed buf.now at) }
{
    if buf.len() >= 512 && at <= buf.len() - 512 {
        return judge_block(&buf[at..at + 512]);
    }
    Err(Cause::Form)
}

// The unused bytes are looked at first, since the sum need not visit them where they are zero. What was found of them is
// handed on, and test 5 does not look at them again. The check is a slice of four bytes by the split alone, so the array that
// std reads is made of them.
fn judge_block(b: &[u8]) -> Verdict
    requires { length b.now ≡ 512 }
    ensures { result ≡ verdict b.now }
{
    let (new, check) = b.split_first_chunk::<508>().unwrap();
    let runs = form::gaps(new);
    let unused = runs.all_zero(new);
    let sum = if unused {
        runs.weighed_outside(new)
    } else {
        check::weighed(new)
    };
    if u32::from_le_bytes([check[0], check[1], check[2], check[3]]) != sum {
        return Err(Cause::Check);
    }
    judge_shape(new, unused)
}

// A new block's bytes by the tests 5 to 7 and 15.
pub fn judge_new(new: &[u8; 508]) -> Verdict
    ensures { result ≡ shape new.now }
{
    judge_shape(new, form::gaps(new).all_zero(new))
}

// The same, by what was found of the unused bytes.
#[tactic(auto, unfolding(block::specs::Verdict::shape))]
fn judge_shape(b: &[u8; 508], unused: bool) -> Verdict
    requires { unused ≡ unused_zero (Fields.kind b.now) (Fields.paint b.now) b.now }
    ensures { result ≡ shape b.now }
{
    if !form::well_formed(b, unused) {
        return Err(Cause::Form);
    }
    if !ranges::floats_in(b) {
        return Err(Cause::Floats);
    }
    if !ranges::integers_in(b) {
        return Err(Cause::Integers);
    }
    if !ranges::bend_suits(b) {
        return Err(Cause::Bend);
    }
    Ok(())
}

// The check that a new block's bytes have.
pub fn new_check(new: &[u8; 508]) -> u32
    ensures { result ≡ Bytes.weighed new.now 508 }
{
    check::weighed(new)
}
