// Makes recorded box passes, frames and glass panels with the proved ones, and compares each with the
// pixels that the Rust left. compare/panels/src/case.rs says what the words of a record hold.
#![tactic(auto)]

ghost use Rattle.std.specs.Prelude.{◌≡◌, ◌<◌, min, List, ℕ, replicate};
ghost use Rattle.records.specs.Record as Record;
ghost use Rattle.replay_panels.specs.Layer as Layer;
ghost use Rattle.replay_panels.specs.Private.{Passes};

use answer::Answer;
use backdrop::GlassStyle;
use color::Color;
use frame::GlassSurface;
use glass::Pane;
use records::{Line, Replayed, clip_of, real, rect_of, word};
use std::io;

// N pixels as they were.
#[tactic(auto, unfolding(crate::specs::Layer::pixels))]
fn started<const N: usize>(rec: &[u8; 348]) -> [u32; N]
    ensures { result ≡ Layer.pixels N rec.now }
{
    records::started(word(rec, 21), word(rec, 22))
}

// Red, green or blue, by its number, as `Layer.channel` has it: the box passes take bytes, three a pixel.
fn channel(p: u32, ch: usize) -> u8
    requires { ch < 3 }
    ensures { result ≡ Layer.channel p ch }
{
    let c = Color::from_pix(p);
    [c.r, c.g, c.b][ch]
}

// The channels of 64 pixels, three bytes each.
fn channels(px: &[u32; 64]) -> [u8; 192]
    ensures { result ≡ Layer.channels px.now }
{
    std::array::from_fn(|k| channel(px[k / 3], k % 3))
}

// 64 pixels with these channels.
#[tactic(auto, unfolding(crate::specs::Layer::stored))]
fn store(px: &mut [u32; 64], bytes: &[u8; 192])
    ensures { px.new ≡ Layer.stored bytes.now px.old }
{
    canvas::map_pixels(px, |i, _| {
        Color::rgb(bytes[i * 3], bytes[i * 3 + 1], bytes[i * 3 + 2]).pix()
    });
}

// The pixels as they were, with their channels passed.
fn passed<F>(rec: &[u8; 348], pass: F) -> [u32; 64]
where
    F: Fn(&[u8], &mut [u8], usize, usize, usize) -> Answer,
    requires { F.IsAlwaysCallable pass }
    ensures { (dst : List ℕ) × Passes F.Fn pass rec.now (Layer.channels (Layer.pixels 64 rec.now)) (replicate 192 0) dst × (result ≡ Layer.stored dst (Layer.pixels 64 rec.now)) }
{
    let mut px = started(rec);
    let src = channels(&px);
    let mut dst = [0u8; 192];
    let w = word(rec, 1) as usize;
    let h = word(rec, 2) as usize;
    let r = word(rec, 7) as usize;
    // a pass that is refused leaves the zeros
    let _ = pass(&src, &mut dst, w, h, r);
    store(&mut px, &dst);
    px
}

#[tactic(auto, unfolding(crate::specs::Layer::window))]
fn window(rec: &[u8; 348]) -> GlassSurface
    ensures { result ≡ Layer.window rec.now }
{
    GlassSurface {
        x: word(rec, 7),
        y: word(rec, 8),
        width: word(rec, 9),
        height: word(rec, 10),
        border_thickness: word(rec, 11),
    }
}

// The tag and the flags are bits of words, as compare/panels writes them and `composite_secure_frame`
// takes them.
#[tactic(auto, unfolding(crate::specs::Layer::framed))]
fn framed(px: &mut [u32], rec: &[u8; 348])
    ensures { px.new ≡ Layer.framed rec.now px.old }
{
    let tag = (word(rec, 12) % 256) as u8;
    let flags = word(rec, 13);
    let s = window(rec);
    s.composite_secure_frame(
        px,
        records::size_of(rec),
        tag,
        flags % 2 == 1,
        flags / 2 % 2 == 1,
    );
}

// The last 64 of 640 pixels.
#[tactic(auto, unfolding(crate::specs::Layer::last))]
fn last(px: &[u32; 640]) -> [u32; 64]
    ensures { result ≡ Layer.last px.now }
{
    let mut end = [0u32; 64];
    end.copy_from_slice(&px[576..]);
    end
}

// The last pixels of a canvas with the frame.
fn frame_end(rec: &[u8; 348]) -> [u32; 64]
    ensures { result ≡ Layer.last (Layer.framed rec.now (Layer.pixels 640 rec.now)) }
{
    let mut px = started(rec);
    framed(&mut px, rec);
    last(&px)
}

#[tactic(auto, unfolding(crate::specs::Layer::entry))]
fn entry(rec: &[u8; 348], i: usize) -> f32
    requires { i < 32 }
    ensures { result ≡ Layer.entry rec.now i }
{
    real(rec, 18) + real(rec, 19) * mathf::of_u32(i as u32)
}

// The panel's table, whose last entry is 0.
fn table(rec: &[u8; 348]) -> [f32; 33]
    ensures { result ≡ Layer.table rec.now }
{
    let mut entries = [0.0f32; 33];
    // by index: 32 of the 33 are filled, and a chain that takes 32 of them says it no plainer
    for i in 0..32 {
        entries[i] = entry(rec, i);
    }
    entries
}

#[tactic(auto, unfolding(crate::specs::Layer::tint))]
fn tint(rec: &[u8; 348]) -> Color
    ensures { result ≡ Layer.tint rec.now }
{
    let word = word(rec, 13);
    Color {
        a: (word / 0x100_0000) as u8,
        ..Color::from_pix(word)
    }
}

#[tactic(auto, unfolding(crate::specs::Layer::style))]
fn style(rec: &[u8; 348]) -> GlassStyle
    ensures { result ≡ Layer.style rec.now }
{
    GlassStyle {
        radius: real(rec, 11),
        blur: real(rec, 12),
        tint: tint(rec),
        saturation: real(rec, 14),
        brightness: real(rec, 15),
        bezel: real(rec, 16),
        spec: real(rec, 17),
    }
}

// The pixels as they were, with the panel on them.
#[tactic(auto, unfolding(crate::specs::Layer::glazed))]
fn glazed(rec: &[u8; 348]) -> [u32; 64]
    ensures { result ≡ Layer.glazed rec.now (Layer.pixels 64 rec.now) }
{
    let mut px = started(rec);
    let mut a = [0u8; 192];
    let mut b = [0u8; 192];
    let entries = table(rec);
    let rect = rect_of(rec);
    let style = style(rec);
    let pane = Pane { rect, style };
    glass::glass(
        &mut px,
        records::size_of(rec),
        clip_of(rec),
        pane,
        &entries,
        &mut a,
        &mut b,
    );
    px
}

// What a record is of.
#[derive(Clone, Copy)]
enum Painter {
    Rows,
    Columns,
    Frame,
    Panel,
}

impl Painter {
    // By the painter's number: every number from 3 on is the panel's.
    fn of_number(number: u32) -> Painter
        ensures { result ≡ Layer.painter number }
    {
        match number {
            0 => Painter::Rows,
            1 => Painter::Columns,
            2 => Painter::Frame,
            _ => Painter::Panel,
        }
    }
}

// The pixels that the record's painter makes.
#[tactic(auto, unfolding(crate::specs::Layer::made, crate::specs::Layer::pass_h, crate::specs::Layer::pass_v))]
fn made(rec: &[u8; 348]) -> [u32; 64]
    ensures { result ≡ Layer.made rec.now }
{
    match Painter::of_number(word(rec, 0)) {
        Painter::Rows => passed(rec, boxblur::box_h),
        Painter::Columns => passed(rec, boxblur::box_v),
        Painter::Frame => frame_end(rec),
        Painter::Panel => glazed(rec),
    }
}

// Whether they are the pixels that the Rust made.
#[tactic(auto, unfolding(crate::specs::Layer::replayed))]
fn replay(rec: &[u8; 348]) -> bool
    ensures { result ≡ Layer.replayed rec.now }
{
    records::is_recorded(&made(rec), rec)
}

// The same, with the painter's place among the lines. Each program has an enum of its own, and so this function.
fn replayed(rec: &[u8; 348]) -> Replayed
    ensures { (result.same ≡ Layer.replayed rec.now) × (result.place ≡ min (Record.word rec.now 0) 3) }
{
    Replayed {
        place: Painter::of_number(word(rec, 0)) as usize,
        same: replay(rec),
    }
}

fn main(rt: HostRuntime) -> io::Result<()> {
    let mut lines = [
        Line::new(b"box_h: "),
        Line::new(b"box_v: "),
        Line::new(b"composite_secure_frame: "),
        Line::new(b"glass: "),
    ];
    records::replay_all(
        &mut rt.stdin(),
        &mut lines,
        |input| records::replay_next(input, replayed),
    )?;
    records::report_all(&mut rt.stdout(), &lines)
}
