// Paints recorded layers with the proved painters, and compares each with the pixels that the Rust
// left. compare/shapes/src/case.rs says what the words of a layer hold.
#![tactic(auto)]

ghost use Rattle.std.specs.Prelude.{◌≡◌, min};
ghost use Rattle.records.specs.Record as Record;
ghost use Rattle.replay_shapes.specs.Layer as Layer;

use fill::Paint;
use records::{Line, Replayed, clip_of, real, rect_of, word};
use shadow::Shadow;
use std::io;

// The paint by its number, as `c_shapes::paint_of` takes it from C.
#[tactic(auto, unfolding(crate::specs::Layer::paint))]
fn paint_of(rec: &[u8; 348]) -> Paint
    ensures { result ≡ Layer.paint rec.now }
{
    c_shapes::paint_of(
        word(rec, 12),
        word(rec, 13),
        word(rec, 14),
        real(rec, 15),
        real(rec, 16),
        real(rec, 17),
        real(rec, 18),
    )
}

// Three painters, each with words of its own: one function for them would take a closure of five
// parameters to save a call or two. px is what is written, and rec what is read.
#[tactic(auto, unfolding(crate::specs::Layer::fill))]
fn fill(px: &mut [u32], rec: &[u8; 348])
    ensures { px.new ≡ Layer.fill rec.now px.old }
{
    fill::fill_rrect(
        px,
        records::size_of(rec),
        clip_of(rec),
        rect_of(rec),
        real(rec, 11),
        paint_of(rec),
    );
}

#[tactic(auto, unfolding(crate::specs::Layer::stroke))]
fn stroke(px: &mut [u32], rec: &[u8; 348])
    ensures { px.new ≡ Layer.stroke rec.now px.old }
{
    stroke::stroke_rrect(
        px,
        records::size_of(rec),
        clip_of(rec),
        rect_of(rec),
        real(rec, 11),
        real(rec, 19),
        c_shapes::color_of(word(rec, 13)),
    );
}

#[tactic(auto, unfolding(crate::specs::Layer::shadow))]
fn shadow(px: &mut [u32], rec: &[u8; 348])
    ensures { px.new ≡ Layer.shadow rec.now px.old }
{
    shadow::shadow_rrect(
        px,
        records::size_of(rec),
        clip_of(rec),
        rect_of(rec),
        Shadow {
            r: real(rec, 11),
            blur: real(rec, 19),
            color: c_shapes::color_of(word(rec, 13)),
            skip_inside: word(rec, 20) != 0, // the field is a bool, and the record has a word
        },
    );
}

// Which painter made a layer.
#[derive(Clone, Copy)]
enum Painter {
    Fill,
    Stroke,
    Shadow,
}

impl Painter {
    // By the painter's number: every number from 2 on is the shadow's.
    fn of_number(number: u32) -> Painter
        ensures { result ≡ Layer.painter number }
    {
        match number {
            0 => Painter::Fill,
            1 => Painter::Stroke,
            _ => Painter::Shadow,
        }
    }
}

// The layer of the record, by its painter.
#[tactic(auto, unfolding(crate::specs::Layer::painted))]
fn paint(px: &mut [u32], rec: &[u8; 348])
    ensures { px.new ≡ Layer.painted rec.now px.old }
{
    match Painter::of_number(word(rec, 0)) {
        Painter::Fill => fill(px, rec),
        Painter::Stroke => stroke(px, rec),
        Painter::Shadow => shadow(px, rec),
    }
}

// Whether the painter makes of the record's canvas what the Rust made of it.
#[tactic(auto, unfolding(crate::specs::Layer::replayed))]
fn replay(rec: &[u8; 348]) -> bool
    ensures { result ≡ Layer.replayed rec.now }
{
    let mut px = records::started(word(rec, 21), word(rec, 22));
    paint(&mut px, rec);
    records::is_recorded(&px, rec)
}

// The same, with the painter's place among the lines. Each program has an enum of its own, and so this function.
fn replayed(rec: &[u8; 348]) -> Replayed
    ensures { (result.same ≡ Layer.replayed rec.now) × (result.place ≡ min (Record.word rec.now 0) 2) }
{
    Replayed {
        place: Painter::of_number(word(rec, 0)) as usize,
        same: replay(rec),
    }
}

fn main(rt: HostRuntime) -> io::Result<()> {
    let mut lines = [
        Line::new(b"fill_rrect: "),
        Line::new(b"stroke_rrect: "),
        Line::new(b"shadow_rrect: "),
    ];
    records::replay_all(
        &mut rt.stdin(),
        &mut lines,
        |input| records::replay_next(input, replayed),
    )?;
    records::report_all(&mut rt.stdout(), &lines)
}
