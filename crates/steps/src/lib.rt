// A playing in steps: one layer a call, so that the sources' pixels may be fresh for each. Every call makes all tests on
// what it is lent; no state is kept. Canvas and scratch are lent beside `Show`, since a contract could speak of a
// `&mut` in a struct by nested pairs alone.
#![tactic(auto)]

ghost use Rattle.std.specs.Prelude.{◌≡◌, ℕ, ◌/◌, ◌<◌, length};
ghost use Rattle.block.specs.Bytes.{block_at};
ghost use Rattle.layer.specs.Layer.{painting};
ghost use Rattle.accept.specs.Tests as Tests;
ghost use Rattle.play.specs.Play.{ScratchLeft};
ghost use Rattle.steps.specs.Steps as Steps;
ghost use Rattle.steps.specs.Private.{choice};

use accept::{Lengths, Show};
use answer::{Answer, Cause};
use layer::Sources;

// The tests of a playing, before its first step. Nothing is painted.
pub fn begin(show: Show, px: &[u32], pool: &[u32], a: &[u8], b: &[u8]) -> Answer
    ensures answer { result ≡ Steps.call_answer (Steps.call_of Steps.begin show.entry (length a.now) (length b.now)) (length px.now) (length pool.now) }
    ensures canvas { px.exit.now ≡ Steps.call_canvas (Steps.call_of Steps.begin show.entry (length a.now) (length b.now)) pool.now px.entry.now }
    ensures scratch { (a.exit.now ≡ a.entry.now) × (b.exit.now ≡ b.entry.now) }
{
    accept::test_all(show, Lengths::of(px, pool, a, b))
}

// The least priority that may come after `last`: a number that is no priority says that none is painted yet, as C hands it.
#[tactic(auto, unfolding(crate::specs::Steps::from))]
fn from(last: u32) -> usize
    ensures { result ≡ Steps.from last }
{
    u16::try_from(last).map_or(0, |p| usize::from(p) + 1)
}

// The number of the block that a step paints, or why it paints none. The priorities are gathered once, by the tests.
fn choose(show: Show, lent: Lengths, last: u32) -> Answer
    ensures { result ≡ choice (Tests.answer_to show.entry lent.canvas lent.pool lent.first lent.second) show.entry.rundown.now last }
{
    let layers = accept::test_layers(show, lent)?;
    let next = order::find_next(&layers.priorities[..layers.count], from(last));
    next.ok_or(Cause::Next.at(0))
}

// Block i of a rundown that passes.
fn paint_block(show: Show, i: usize, px: &mut [u32], pool: &[u32], a: &mut [u8], b: &mut [u8])
    requires accepted { Tests.answer_to show (length px.old) (length pool.now) (length a.old) (length b.old) ≡ Ok (length show.rundown.now / 512) }
    requires there { i < length show.rundown.now / 512 }
    ensures canvas { px.new ≡ painting show.entry.size.w show.entry.size.h show.entry.table.now pool.now (block_at show.entry.rundown.now i) px.old }
    ensures kept { (length a.new ≡ length a.old) × (length b.new ≡ length b.old) }
{
    let sources = Sources {
        table: show.table,
        pool,
    };
    let block = &show.rundown[512 * i..512 * i + 512];
    layer::paint(block, px, show.size, sources, a, b);
}

// The layer with the next priority above `last`, painted from the pool as it is now. a and b are scratch: after a step
// that painted their bytes are left free.
pub fn step(
    show: Show,
    px: &mut [u32],
    pool: &[u32],
    a: &mut [u8],
    b: &mut [u8],
    last: u32,
) -> Answer
    ensures answer { result ≡ Steps.call_answer (Steps.call_of (Steps.step last) show.entry (length a.old) (length b.old)) (length px.old) (length pool.now) }
    ensures canvas { px.new ≡ Steps.call_canvas (Steps.call_of (Steps.step last) show.entry (length a.old) (length b.old)) pool.now px.old }
    ensures scratch { ScratchLeft result a.old a.new × ScratchLeft result b.old b.new }
{
    let i = choose(show, Lengths::of(px, pool, a, b), last)?;
    paint_block(show, i, px, pool, a, b);
    Ok(usize::from(block::priority_at(show.rundown, i)))
}
