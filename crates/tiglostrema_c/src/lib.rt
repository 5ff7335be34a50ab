// The library as an archive for C, with the names of include/tiglostrema.h: each export calls the function of the same name
// in the crate tiglostrema, which Rattle crates use, and has its clauses, no more and no less.
#![tactic(auto)]

ghost use Rattle.std.specs.Prelude.{◌≡◌, length};
ghost use Rattle.boxblur.specs.Refuse.{passed, after_h, after_v};
ghost use Rattle.rundown.specs.Tests.{add_answer, remove_answer};
ghost use Rattle.rundown.specs.Kept.{AddLeaves, RemoveLeaves};
ghost use Rattle.accept.specs.Tests.{answer, sizes_answer};
ghost use Rattle.play.specs.Play.{final, ScratchLeft};
ghost use Rattle.steps.specs.Steps.{begin, step, call, call_answer, call_canvas};
ghost use Rattle.stain.specs.Map.{stain_map};
ghost use Rattle.forecast.specs.Forecast.{forecast_of, boxes_after, totals_after};
ghost use Rattle.dearest.specs.Dearest.{dearest_answer, block_after};
ghost use Rattle.answer.specs.Answer.{packed};
ghost use Rattle.tiglostrema.specs.Version.{version};

#[unsafe(no_mangle)]
pub extern "C" fn tiglostrema_version() -> u32
    ensures { result ≡ version }
{
    tiglostrema::tiglostrema_version()
}

#[unsafe(no_mangle)]
pub extern "C" fn tiglostrema_play(
    rundown: &[u8],
    width: u32,
    height: u32,
    canvas: &mut [u32],
    table: &[u32],
    pool: &[u32],
    a: &mut [u8],
    b: &mut [u8],
) -> u64
    ensures answer { result ≡ packed (answer width height (length canvas.old) table.now (length pool.now) rundown.now (length a.old) (length b.old)) }
    ensures canvas { canvas.new ≡ final width height table.now pool.now rundown.now (length a.old) (length b.old) canvas.old }
    ensures first { ScratchLeft (answer width height (length canvas.old) table.now (length pool.now) rundown.now (length a.old) (length b.old)) a.old a.new }
    ensures second { ScratchLeft (answer width height (length canvas.old) table.now (length pool.now) rundown.now (length a.old) (length b.old)) b.old b.new }
{
    tiglostrema::tiglostrema_play(rundown, width, height, canvas, table, pool, a, b)
}

#[unsafe(no_mangle)]
pub extern "C" fn tiglostrema_begin(
    rundown: &[u8],
    width: u32,
    height: u32,
    canvas: &[u32],
    table: &[u32],
    pool: &[u32],
    a: &[u8],
    b: &[u8],
) -> u64
    ensures answer { result ≡ packed (call_answer (call begin rundown.now width height table.now (length a.now) (length b.now)) (length canvas.now) (length pool.now)) }
    ensures canvas { canvas.exit.now ≡ call_canvas (call begin rundown.now width height table.now (length a.now) (length b.now)) pool.now canvas.entry.now }
    ensures scratch { (a.exit.now ≡ a.entry.now) × (b.exit.now ≡ b.entry.now) }
{
    tiglostrema::tiglostrema_begin(rundown, width, height, canvas, table, pool, a, b)
}

#[unsafe(no_mangle)]
pub extern "C" fn tiglostrema_step(
    rundown: &[u8],
    width: u32,
    height: u32,
    canvas: &mut [u32],
    table: &[u32],
    pool: &[u32],
    a: &mut [u8],
    b: &mut [u8],
    last: u32,
) -> u64
    ensures answer { result ≡ packed (call_answer (call (step last) rundown.now width height table.now (length a.old) (length b.old)) (length canvas.old) (length pool.now)) }
    ensures canvas { canvas.new ≡ call_canvas (call (step last) rundown.now width height table.now (length a.old) (length b.old)) pool.now canvas.old }
    ensures first { ScratchLeft (call_answer (call (step last) rundown.now width height table.now (length a.old) (length b.old)) (length canvas.old) (length pool.now)) a.old a.new }
    ensures second { ScratchLeft (call_answer (call (step last) rundown.now width height table.now (length a.old) (length b.old)) (length canvas.old) (length pool.now)) b.old b.new }
{
    tiglostrema::tiglostrema_step(rundown, width, height, canvas, table, pool, a, b, last)
}

#[unsafe(no_mangle)]
pub extern "C" fn tiglostrema_stain(
    rundown: &[u8],
    width: u32,
    height: u32,
    table: &[u32],
    source: u32,
    out: &mut [u8],
) -> u64
    ensures answer { result ≡ packed (sizes_answer width height (length out.old) table.now rundown.now) }
    ensures map { out.new ≡ stain_map width height table.now rundown.now source out.old }
{
    tiglostrema::tiglostrema_stain(rundown, width, height, table, source, out)
}

#[unsafe(no_mangle)]
pub extern "C" fn tiglostrema_forecast(
    rundown: &[u8],
    width: u32,
    height: u32,
    table: &[u32],
    boxes: &mut [i32; 1024],
    totals: &mut [u64; 2],
) -> u64
    ensures answer { result ≡ packed (forecast_of width height table.now rundown.now).answer }
    ensures boxes { boxes.new ≡ boxes_after (forecast_of width height table.now rundown.now) boxes.old }
    ensures totals { totals.new ≡ totals_after (forecast_of width height table.now rundown.now) totals.old }
{
    tiglostrema::tiglostrema_forecast(rundown, width, height, table, boxes, totals)
}

#[unsafe(no_mangle)]
pub extern "C" fn tiglostrema_dearest(
    width: u32,
    height: u32,
    blur: f32,
    block: &mut [u8; 512],
) -> u64
    ensures answer { result ≡ packed (dearest_answer width height blur) }
    ensures block { block.new ≡ block_after width height blur block.old }
{
    tiglostrema::tiglostrema_dearest(width, height, blur, block)
}

#[unsafe(no_mangle)]
pub extern "C" fn tiglostrema_add(buffer: &mut [u8], count: usize, block: &[u8; 508]) -> u64
    ensures answer { result ≡ packed (add_answer count buffer.old block.now) }
    ensures leaves { AddLeaves (add_answer count buffer.old block.now) count block.now buffer.old buffer.new }
{
    tiglostrema::tiglostrema_add(buffer, count, block)
}

#[unsafe(no_mangle)]
pub extern "C" fn tiglostrema_remove(buffer: &mut [u8], count: usize, priority: u16) -> u64
    ensures answer { result ≡ packed (remove_answer count buffer.old priority) }
    ensures leaves { RemoveLeaves (remove_answer count buffer.old priority) count priority buffer.old buffer.new }
{
    tiglostrema::tiglostrema_remove(buffer, count, priority)
}

#[unsafe(no_mangle)]
pub extern "C" fn tiglostrema_box_h(
    src: &[u8],
    dst: &mut [u8],
    width: usize,
    height: usize,
    r: usize,
) -> u64
    ensures { (result ≡ packed (passed src.now dst.old width height r)) × (dst.new ≡ after_h src.now dst.old width height r) }
{
    tiglostrema::tiglostrema_box_h(src, dst, width, height, r)
}

#[unsafe(no_mangle)]
pub extern "C" fn tiglostrema_box_v(
    src: &[u8],
    dst: &mut [u8],
    width: usize,
    height: usize,
    r: usize,
) -> u64
    ensures { (result ≡ packed (passed src.now dst.old width height r)) × (dst.new ≡ after_v src.now dst.old width height r) }
{
    tiglostrema::tiglostrema_box_v(src, dst, width, height, r)
}
