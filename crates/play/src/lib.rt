// A rundown played on a canvas: every test first, then its layers in ascending priority. Canvas and scratch are lent
// beside `Show`, since a contract could speak of a `&mut` in a struct by nested pairs alone.
#![tactic(auto)]

ghost use Rattle.std.specs.Prelude.{◌≡◌, ◌/◌, length};
ghost use Rattle.answer.specs.Answer.{returned};
ghost use Rattle.order.specs.Order.{ascending};
ghost use Rattle.accept.specs.Tests as Tests;
ghost use Rattle.play.specs.Play as Play;

use accept::{Lengths, Show};
use answer::Answer;
use layer::Sources;

// The layers of a rundown that passes, the lowest first.
fn paint_all(show: Show, px: &mut [u32], pool: &[u32], a: &mut [u8], b: &mut [u8])
    requires { Tests.answer_to show (length px.old) (length pool.now) (length a.old) (length b.old) ≡ Ok (length show.rundown.now / 512) }
    ensures canvas { px.new ≡ Play.paint_each show.entry.size.w show.entry.size.h show.entry.table.now pool.now show.entry.rundown.now (ascending show.entry.rundown.now (length show.entry.rundown.now / 512)) px.old }
    ensures kept { (length a.new ≡ length a.old) × (length b.new ≡ length b.old) }
{
    let count = show.rundown.len() / 512;
    let order = order::ascending(show.rundown, count);
    let sources = Sources {
        table: show.table,
        pool,
    };
    for n in &order[..count] {
        let at = 512 * usize::from(*n);
        let block = &show.rundown[at..at + 512];
        layer::paint(block, px, show.size, sources, a, b);
    }
}

// The rundown's blocks, played in ascending priority on a canvas of its size. The pool has the sources' pixels. a and b are
// scratch: after an accepted play their bytes are left free. The clause `number` follows from `answer`; it is a promise
// of its own, of what C is told.
pub fn play(show: Show, px: &mut [u32], pool: &[u32], a: &mut [u8], b: &mut [u8]) -> Answer
    ensures answer { result ≡ Tests.answer_to show.entry (length px.old) (length pool.now) (length a.old) (length b.old) }
    ensures canvas { px.new ≡ Play.final_of show.entry pool.now (length a.old) (length b.old) px.old }
    ensures scratch { Play.ScratchLeft result a.old a.new × Play.ScratchLeft result b.old b.new }
    ensures number { returned result ≡ returned (Tests.answer_to show.entry (length px.old) (length pool.now) (length a.old) (length b.old)) }
{
    let n = accept::test_all(show, Lengths::of(px, pool, a, b))?;
    paint_all(show, px, pool, a, b);
    Ok(n)
}
