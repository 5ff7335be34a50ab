// The tests of play: every refusal that 01 names for it, in 01's order. They see the rundown and the table, and of all
// else the lengths alone.
#![tactic(auto)]

ghost use Rattle.std.specs.Prelude.{◌≡◌, ◌*◌, ◌/◌, ◌≤◌, ◌<◌, length};
ghost use Rattle.block.specs.Bytes.{block_at};
ghost use Rattle.layer.specs.Layer.{source_there, frame_there};
ghost use Rattle.answer.specs.Answer.{refused};
ghost use Rattle.order.specs.Order.{gathered};
ghost use Rattle.rundown.specs.Tests.{apart};
ghost use Rattle.accept.specs.Tests as Tests;
ghost use Rattle.accept.specs.Private as Private;

use answer::{Answer, Cause, Refusal};
use block::Kind;
use canvas::Size;

// What a call is lent to be read whole: the rundown's bytes, the canvas's size and the table of the sources' sides.
#[derive(Clone, Copy)]
pub struct Show<'a> {
    pub rundown: &'a [u8],
    pub size: Size,
    pub table: &'a [u32],
}

// How long the rest is that it is lent: the canvas and the pool in pixels, the two scratch slices in bytes.
#[derive(Clone, Copy)]
pub struct Lengths {
    pub canvas: usize,
    pub pool: usize,
    pub first: usize,
    pub second: usize,
}

impl Lengths {
    // Those of what is lent.
    pub fn of(canvas: &[u32], pool: &[u32], first: &[u8], second: &[u8]) -> Self
        ensures { result ≡ record { canvas = length canvas.now; pool = length pool.now; first = length first.now; second = length second.now } }
    {
        Lengths {
            canvas: canvas.len(),
            pool: pool.len(),
            first: first.len(),
            second: second.len(),
        }
    }
}

// The layers of a rundown that passes: how many, and their priorities side by side, gathered once, for test 8 and for
// whoever looks for a layer then. An array with a count beside it, since there is no heap; no ghost field bounds the count,
// since `layers_of` makes the layers of an answer with any count.
#[derive(Clone, Copy)]
pub struct Layers {
    pub count: usize,
    pub priorities: [u16; 256],
}

// ---- tests 4 to 7, 15, 9, 10

#[tactic(auto, unfolding(layer::specs::Layer::source_there, block::specs::Fields::kind_of))]
fn source_there(b: &[u8], table: &[u32]) -> bool
    ensures { result ≡ source_there table.now b.now }
{
    match block::kind_of(b) {
        Some(Kind::Straight | Kind::Scaled | Kind::Genie) => {
            sources::is_listed(table, block::source(b))
        }
        _ => true,
    }
}

#[tactic(auto, unfolding(layer::specs::Layer::frame_there, block::specs::Fields::kind_of))]
fn frame_there(b: &[u8], size: Size) -> bool
    ensures { result ≡ frame_there size.w b.now }
{
    match block::kind_of(b) {
        Some(Kind::Frame) => block::left(b) as usize + block::width(b) as usize <= size.w,
        _ => true,
    }
}

// Block n, where the tests 4 to 7 and 15 have passed: 9, then 10.
fn placed(b: &[u8], n: usize, size: Size, table: &[u32]) -> Answer
    ensures { result ≡ Private.place_test size.w table.now n b.now }
{
    if !source_there(b, table) {
        return Err(Cause::Source.at(n));
    }
    if !frame_there(b, size) {
        return Err(Cause::Frame.at(n));
    }
    Ok(n)
}

fn judge_one(show: Show, n: usize) -> Answer
    requires { n < length show.rundown.now / 512 }
    ensures { result ≡ Private.block_test show.entry.size.w show.entry.table.now n (block_at show.entry.rundown.now n) }
{
    answer::at(n, judge::judge(show.rundown, n))?;
    let block = &show.rundown[512 * n..512 * n + 512];
    placed(block, n, show.size, show.table)
}

// The count is handed on beside `Show`, divided once: `blocks_test` and `scratch_test` take any.
fn judge_each(show: Show, count: usize) -> Answer
    requires { count ≤ length show.rundown.now / 512 }
    ensures { result ≡ Tests.blocks_test show.entry.size.w show.entry.table.now count show.entry.rundown.now }
{
    for n in 0..count {
        judge_one(show, n)?;
    }
    Ok(count)
}

// ---- test 11

fn scratch_each(show: Show, count: usize, lent: Lengths) -> Answer
    ensures { result ≡ Tests.scratch_test show.entry.size.w show.entry.size.h lent.first lent.second count show.entry.rundown.now }
{
    for n in 0..count {
        let need = layer::need(show.rundown, n, show.size);
        if need > lent.first || need > lent.second {
            return Err(Cause::Scratch.at(n));
        }
    }
    Ok(count)
}

// ---- all tests

// Whole blocks, at most 256.
#[tactic(auto, unfolding(crate::specs::Tests::rundown_right))]
fn whole(buf: &[u8]) -> bool
    ensures { result ≡ Tests.rundown_right buf.now }
{
    buf.len() % 512 == 0 && buf.len() / 512 <= 256
}

// 8.
fn test_apart(buf: &[u8], count: usize) -> Result<Layers, Refusal>
    requires { count ≤ 256 }
    ensures { result ≡ Tests.layers_of (apart count buf.now) (gathered buf.now count) }
{
    let priorities = order::priorities(buf, count);
    rundown::repeats(&priorities[..count])?;
    Ok(Layers { count, priorities })
}

// 4 to 10.
fn test_blocks(show: Show, count: usize) -> Result<Layers, Refusal>
    requires { (count ≤ 256) × (count ≤ length show.rundown.now / 512) }
    ensures { result ≡ Tests.layers_of (Private.blocks_tests show.entry.size.w show.entry.table.now count show.entry.rundown.now) (gathered show.entry.rundown.now count) }
{
    judge_each(show, count)?;
    test_apart(show.rundown, count)
}

// 3 to 10.
fn test_rundown(show: Show) -> Result<Layers, Refusal>
    ensures { result ≡ Tests.layers_of (Private.rundown_tests show.entry.size.w show.entry.table.now show.entry.rundown.now) (Tests.gathered_of show.entry) }
{
    if !whole(show.rundown) {
        return Err(Cause::Rundown.at(0));
    }
    test_blocks(show, show.rundown.len() / 512)
}

// Test 1 of the sides alone: a canvas of as many pixels as they say. The 0 that nobody reads is the definition's.
#[tactic(auto, unfolding(crate::specs::Tests::canvas_test))]
pub fn test_sides(size: Size) -> Answer
    ensures { result ≡ Tests.canvas_test size.w size.h (size.w * size.h) }
{
    if boxes::is_size(size) {
        return Ok(0);
    }
    Err(Cause::Canvas.at(0))
}

// Every test, with the layers' priorities.
pub fn test_layers(show: Show, lent: Lengths) -> Result<Layers, Refusal>
    ensures { result ≡ Tests.layers_of (Tests.answer_to show.entry lent.canvas lent.pool lent.first lent.second) (Tests.gathered_of show.entry) }
{
    if !show.size.is_canvas(lent.canvas) {
        return Err(Cause::Canvas.at(0));
    }
    if !sources::table_right(show.table) || !sources::pool_right(show.table, lent.pool) {
        return Err(Cause::Sources.at(0));
    }
    let layers = test_rundown(show)?;
    scratch_each(show, layers.count, lent)?;
    Ok(layers)
}

// The same, where the answer alone counts: play and a playing's begin look for no layer.
pub fn test_all(show: Show, lent: Lengths) -> Answer
    ensures { result ≡ Tests.answer_to show.entry lent.canvas lent.pool lent.first lent.second }
{
    let layers = test_layers(show, lent)?;
    Ok(layers.count)
}

// Every test that the sizes alone decide: no pool, and no scratch. A canvas of n pixels, or a map of it of n bytes. Tests 1
// and 2 stand here again, since in `test_layers` the pool's test lies between them and the rundown's.
pub fn test_sizes(show: Show, n: usize) -> Answer
    ensures { result ≡ Tests.sizes_answer_to show.entry n }
{
    if !show.size.is_canvas(n) {
        return Err(Cause::Canvas.at(0));
    }
    if !sources::table_right(show.table) {
        return Err(Cause::Sources.at(0));
    }
    let layers = test_rundown(show)?;
    Ok(layers.count)
}
