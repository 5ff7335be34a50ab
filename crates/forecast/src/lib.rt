// What a rundown needs before it is played, worked out from its bytes and the sizes alone: no pixel is read and none is
// painted.
#![tactic(auto)]

ghost use Rattle.std.specs.Prelude.{◌≡◌, true, ◌*◌, ◌/◌, ◌≤◌, ◌<◌, length};
ghost use Rattle.canvas.specs.Canvas.{is_canvas};
ghost use Rattle.backdrop.specs.Window.{area_of, glass_box};
ghost use Rattle.block.specs.Bytes.{block_at};
ghost use Rattle.block.specs.Fields as Fields;
ghost use Rattle.layer.specs.Layer.{layer_of};
ghost use Rattle.accept.specs.Tests.{sizes_answer_to};
ghost use Rattle.forecast.specs.Forecast.{sides, panel_cells, cells_of, forecast_after, forecast_of, boxes_after, totals_after};

use accept::Show;
use answer::Answer;
use block::Kind;
use canvas::{Area, Size};

// The answer is the count of layers, or why the rundown is refused, and then all else is zero: the definition `forecast_of`
// has these four beside one another. Each scratch slice has to have `scratch` bytes; x0 y0 x1 y1 of block i stand from
// place 4 i on in `boxes`, as C takes them, zeros where there is no pixel.
#[derive(Clone, Copy)]
pub struct Forecast {
    pub answer: Answer,
    pub scratch: usize,
    pub cells: u64,
    pub boxes: [i32; 1024],
}

// ---- one layer

// The sides of a box on a canvas, one behind the other. An `as`, here and below, since there is no `From` between these
// types.
fn put_sides(out: &mut [i32], a: Area)
    requires { (length out.old ≡ 4) × (a.x0 ≤ 4096) × (a.y0 ≤ 4096) × (a.x1 ≤ 4096) × (a.y1 ≤ 4096) }
    ensures { out.new ≡ sides a }
{
    out.copy_from_slice(&[a.x0 as i32, a.y0 as i32, a.x1 as i32, a.y1 as i32]);
}

// The cells of a panel's window; none where its box a has no pixel, though its window may have some. The product stands
// here, in dearest and in backdrop: dearest's `need` says why. A `Size` is of any sides, since a caller's are tested; a
// second type for small ones, for this function and `measure`, is no plainer than the fact in both.
fn panel_cells(b: &[u8], size: Size, a: Area) -> usize
    requires { (is_canvas size.w size.h (size.w * size.h) ≡ true) × (a ≡ area_of (glass_box size.w size.h (Fields.clip b.now) (Fields.rect b.now))) }
    ensures { result ≡ panel_cells size.w size.h b.now }
{
    if a.is_empty() {
        return 0;
    }
    let win = boxes::window_of(b, size);
    let k = backdrop::scale(block::blur(b));
    let wide = win.x1 - win.x0;
    let high = win.y1 - win.y0;
    let columns = backdrop::cells(wide, k);
    let rows = backdrop::cells(high, k);
    columns * rows
}

// The box of block n into the four places of out; the answer is how many cells the layer works on.
#[tactic(auto, unfolding(crate::specs::Forecast::cells_of, block::specs::Fields::kind_of))]
fn measure(show: Show, n: usize, out: &mut [i32]) -> usize
    requires { (is_canvas show.size.w show.size.h (show.size.w * show.size.h) ≡ true) × (length out.old ≡ 4) × (n < length show.rundown.now / 512) }
    ensures cells { result ≡ cells_of show.entry.size.w show.entry.size.h (block_at show.entry.rundown.now n) }
    ensures place { out.new ≡ sides (area_of (layer_of show.entry.size.w show.entry.size.h show.entry.table.now (block_at show.entry.rundown.now n)).box) }
{
    let b = &show.rundown[512 * n..512 * n + 512];
    let a = boxes::box_of(b, show.size, show.table);
    put_sides(out, a);
    match block::kind_of(b) {
        Some(Kind::Glass) => panel_cells(b, show.size, a),
        _ => 0,
    }
}

// ---- the rundown

// The forecast of a rundown that passes the tests. A layer needs three bytes for each cell.
fn measure_all(show: Show, count: usize) -> Forecast
    requires { sizes_answer_to show (show.size.w * show.size.h) ≡ Ok count }
    ensures { result ≡ forecast_after (Ok count) show.entry.size.w show.entry.size.h show.entry.table.now show.entry.rundown.now }
{
    let mut boxes = [0i32; 1024];
    let mut scratch = 0usize;
    let mut cells = 0;
    for n in 0..count {
        let at = 4 * n;
        let made = measure(show, n, &mut boxes[at..at + 4]);
        scratch = scratch.max(3 * made);
        cells += made as u64;
    }
    Forecast {
        answer: Ok(count),
        scratch,
        cells,
        boxes,
    }
}

// Tests 1 to 10 and 15. The sides are tested before w × h is formed: it may not fit.
fn test(show: Show) -> Answer
    ensures { result ≡ sizes_answer_to show.entry (show.entry.size.w * show.entry.size.h) }
{
    accept::test_sides(show.size)?;
    accept::test_sizes(show, show.size.w * show.size.h)
}

// The scratch that a play of the rundown on a canvas of its size needs, where its layers paint, and how many cells its
// panels work on. Refused as play is, without the lengths of canvas and pool and without scratch.
pub fn forecast_of(show: Show) -> Forecast
    ensures { result ≡ forecast_of show.entry.size.w show.entry.size.h show.entry.table.now show.entry.rundown.now }
{
    match test(show) {
        Ok(count) => measure_all(show, count),
        Err(r) => Forecast {
            answer: Err(r),
            scratch: 0,
            cells: 0,
            boxes: [0i32; 1024],
        },
    }
}

// ---- lent memory

// The forecast's boxes and totals into lent memory, which stays as it was where the rundown is refused. C takes the totals
// as two numbers side by side: the scratch, then the cells.
#[tactic(auto, unfolding(crate::specs::Forecast::boxes_after, crate::specs::Forecast::totals_after, crate::specs::Forecast::leaves))]
pub fn write(f: Forecast, boxes: &mut [i32; 1024], totals: &mut [u64; 2])
    ensures boxes { boxes.new ≡ boxes_after f boxes.old }
    ensures totals { totals.new ≡ totals_after f totals.old }
{
    if f.answer.is_ok() {
        *boxes = f.boxes;
        *totals = [f.scratch as u64, f.cells];
    }
}
