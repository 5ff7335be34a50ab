// The library as C sees it: include/tiglostrema.h. An answer is one number: in its upper 32 bits 0, or the cause's number;
// in its lower ones a value, as the count of layers, or what stands beside the cause. The parameters are the header's, in
// its order, and the contracts are written over them.
#![tactic(auto)]

ghost use Rattle.std.specs.Prelude.{◌≡◌, length};
ghost use Rattle.boxblur.specs.Refuse.{passed, after_h, after_v};
ghost use Rattle.rundown.specs.Tests.{add_answer, remove_answer};
ghost use Rattle.rundown.specs.Kept.{AddLeaves, RemoveLeaves};
ghost use Rattle.accept.specs.Tests.{answer, sizes_answer};
ghost use Rattle.play.specs.Play.{final, ScratchLeft};
ghost use Rattle.steps.specs.Steps.{begin, step, call, call_answer, call_canvas};
ghost use Rattle.stain.specs.Map.{stain_map};
ghost use Rattle.forecast.specs.Forecast.{forecast_of, boxes_after, totals_after};
ghost use Rattle.dearest.specs.Dearest.{dearest_answer, block_after};
ghost use Rattle.answer.specs.Answer.{packed};
ghost use Rattle.tiglostrema.specs.Version.{version};

use accept::Show;
use canvas::Size;

// An `as`, since there is no `From` between these types.
fn size_of(width: u32, height: u32) -> Size
    ensures { result ≡ record { w = width; h = height } }
{
    Size {
        w: width as usize,
        h: height as usize,
    }
}

// What a call is lent to be read whole, by C's parameters.
fn show_of<'a>(rundown: &'a [u8], width: u32, height: u32, table: &'a [u32]) -> Show<'a>
    ensures rundown { result.rundown.now ≡ rundown.now }
    ensures size { result.size ≡ record { w = width; h = height } }
    ensures table { result.table.now ≡ table.now }
{
    Show {
        rundown,
        size: size_of(width, height),
        table,
    }
}

// The library's version, a byte each for major, minor and patch. include/tiglostrema.h has the same number, so that a
// program can hold the header that it was compiled with against the archive that it is linked with.
#[unsafe(no_mangle)]
pub extern "C" fn tiglostrema_version() -> u32
    ensures { result ≡ version }
{
    0x00_07_00
}

// The rundown's layers painted on the canvas in ascending priority. a and b are scratch: their bytes are free after an
// accepted play. After a refusal nothing has changed.
#[unsafe(no_mangle)]
pub extern "C" fn tiglostrema_play(
    rundown: &[u8],
    width: u32,
    height: u32,
    canvas: &mut [u32],
    table: &[u32],
    pool: &[u32],
    a: &mut [u8],
    b: &mut [u8],
) -> u64
    ensures answer { result ≡ packed (answer width height (length canvas.old) table.now (length pool.now) rundown.now (length a.old) (length b.old)) }
    ensures canvas { canvas.new ≡ final width height table.now pool.now rundown.now (length a.old) (length b.old) canvas.old }
    ensures first { ScratchLeft (answer width height (length canvas.old) table.now (length pool.now) rundown.now (length a.old) (length b.old)) a.old a.new }
    ensures second { ScratchLeft (answer width height (length canvas.old) table.now (length pool.now) rundown.now (length a.old) (length b.old)) b.old b.new }
{
    let show = show_of(rundown, width, height, table);
    answer::pack(play::play(show, canvas, pool, a, b))
}

// The tests of a playing in steps, before its first step: play's. The value is the count of layers. Nothing is written.
#[unsafe(no_mangle)]
pub extern "C" fn tiglostrema_begin(
    rundown: &[u8],
    width: u32,
    height: u32,
    canvas: &[u32],
    table: &[u32],
    pool: &[u32],
    a: &[u8],
    b: &[u8],
) -> u64
    ensures answer { result ≡ packed (call_answer (call begin rundown.now width height table.now (length a.now) (length b.now)) (length canvas.now) (length pool.now)) }
    ensures canvas { canvas.exit.now ≡ call_canvas (call begin rundown.now width height table.now (length a.now) (length b.now)) pool.now canvas.entry.now }
    ensures scratch { (a.exit.now ≡ a.entry.now) × (b.exit.now ≡ b.entry.now) }
{
    let show = show_of(rundown, width, height, table);
    answer::pack(steps::begin(show, canvas, pool, a, b))
}

// One layer: the one with the next priority above `last`, or the lowest where `last` is above 65535, painted from the pool
// as it is now. Every test is made again. The value is the priority painted. a and b are scratch: their bytes are free
// after a step that painted. After a refusal nothing has changed.
#[unsafe(no_mangle)]
pub extern "C" fn tiglostrema_step(
    rundown: &[u8],
    width: u32,
    height: u32,
    canvas: &mut [u32],
    table: &[u32],
    pool: &[u32],
    a: &mut [u8],
    b: &mut [u8],
    last: u32,
) -> u64
    ensures answer { result ≡ packed (call_answer (call (step last) rundown.now width height table.now (length a.old) (length b.old)) (length canvas.old) (length pool.now)) }
    ensures canvas { canvas.new ≡ call_canvas (call (step last) rundown.now width height table.now (length a.old) (length b.old)) pool.now canvas.old }
    ensures first { ScratchLeft (call_answer (call (step last) rundown.now width height table.now (length a.old) (length b.old)) (length canvas.old) (length pool.now)) a.old a.new }
    ensures second { ScratchLeft (call_answer (call (step last) rundown.now width height table.now (length a.old) (length b.old)) (length canvas.old) (length pool.now)) b.old b.new }
{
    let show = show_of(rundown, width, height, table);
    answer::pack(steps::step(show, canvas, pool, a, b, last))
}

// Where the source's pixels may stand on the canvas after the rundown is played: a byte for each pixel, 1 or 0. Refused as
// play is, without the pool's length and the scratch. After a refusal the map has not changed.
#[unsafe(no_mangle)]
pub extern "C" fn tiglostrema_stain(
    rundown: &[u8],
    width: u32,
    height: u32,
    table: &[u32],
    source: u32,
    out: &mut [u8],
) -> u64
    ensures answer { result ≡ packed (sizes_answer width height (length out.old) table.now rundown.now) }
    ensures map { out.new ≡ stain_map width height table.now rundown.now source out.old }
{
    let show = show_of(rundown, width, height, table);
    answer::pack(stain::stain(show, source, out))
}

// What a play of the rundown needs, before anything is painted. boxes has x0 y0 x1 y1 of each layer in the rundown's order,
// zeros for an empty box or no layer; totals has the bytes that each scratch slice has to have, and the cells of glass that
// are worked on. Refused as play is, without the lengths of canvas and pool and the scratch. After a refusal both arrays are
// as they were.
#[unsafe(no_mangle)]
pub extern "C" fn tiglostrema_forecast(
    rundown: &[u8],
    width: u32,
    height: u32,
    table: &[u32],
    boxes: &mut [i32; 1024],
    totals: &mut [u64; 2],
) -> u64
    ensures answer { result ≡ packed (forecast_of width height table.now rundown.now).answer }
    ensures boxes { boxes.new ≡ boxes_after (forecast_of width height table.now rundown.now) boxes.old }
    ensures totals { totals.new ≡ totals_after (forecast_of width height table.now rundown.now) totals.old }
{
    let f = forecast::forecast_of(show_of(rundown, width, height, table));
    forecast::write(f, boxes, totals);
    answer::pack(f.answer)
}

// The worst that a designer can do with a blur on a canvas of that size: one glass layer that needs the most scratch of all
// with that blur, as a finished block. The answer is its need, the bytes that each scratch slice has to have. Which such
// layer is shown is free. After a refusal the block is as it was.
#[unsafe(no_mangle)]
pub extern "C" fn tiglostrema_dearest(
    width: u32,
    height: u32,
    blur: f32,
    block: &mut [u8; 512],
) -> u64
    ensures answer { result ≡ packed (dearest_answer width height blur) }
    ensures block { block.new ≡ block_after width height blur block.old }
{
    answer::pack(dearest::dearest(size_of(width, height), blur, block))
}

// After an add and after a remove the blocks stand in ascending priority, in whatever order they came; the bytes past the
// last one are free. A refusal changes no byte.
#[unsafe(no_mangle)]
pub extern "C" fn tiglostrema_add(buffer: &mut [u8], count: usize, block: &[u8; 508]) -> u64
    ensures answer { result ≡ packed (add_answer count buffer.old block.now) }
    ensures leaves { AddLeaves (add_answer count buffer.old block.now) count block.now buffer.old buffer.new }
{
    answer::pack(rundown::add(buffer, count, block))
}

#[unsafe(no_mangle)]
pub extern "C" fn tiglostrema_remove(buffer: &mut [u8], count: usize, priority: u16) -> u64
    ensures answer { result ≡ packed (remove_answer count buffer.old priority) }
    ensures leaves { RemoveLeaves (remove_answer count buffer.old priority) count priority buffer.old buffer.new }
{
    answer::pack(rundown::remove(buffer, count, priority))
}

#[unsafe(no_mangle)]
pub extern "C" fn tiglostrema_box_h(
    src: &[u8],
    dst: &mut [u8],
    width: usize,
    height: usize,
    r: usize,
) -> u64
    ensures { (result ≡ packed (passed src.now dst.old width height r)) × (dst.new ≡ after_h src.now dst.old width height r) }
{
    answer::pack(boxblur::box_h(src, dst, width, height, r))
}

#[unsafe(no_mangle)]
pub extern "C" fn tiglostrema_box_v(
    src: &[u8],
    dst: &mut [u8],
    width: usize,
    height: usize,
    r: usize,
) -> u64
    ensures { (result ≡ packed (passed src.now dst.old width height r)) × (dst.new ≡ after_v src.now dst.old width height r) }
{
    answer::pack(boxblur::box_v(src, dst, width, height, r))
}
