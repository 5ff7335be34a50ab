// Makes recorded copies with the proved ones, and compares each with the pixels that the Rust left.
// compare/copies/src/case.rs says what the words of a copy hold.
#![tactic(auto)]

ghost use Rattle.std.specs.Prelude.{◌≡◌, min, length, take};
ghost use Rattle.records.specs.Record as Record;
ghost use Rattle.replay_copies.specs.Layer as Layer;

use genie::Flight;
use geom::Pt;
use records::{Line, Replayed, clip_of, real, rect_of, whole, word};
use scaled::Stretch;
use sources::Sides;
use std::io;
use straight::Blit;

#[tactic(auto, unfolding(crate::specs::Layer::sides))]
fn sides_of(rec: &[u8; 348]) -> Sides
    ensures { result ≡ Layer.sides rec.now }
{
    Sides {
        w: word(rec, 12) as usize,
        h: word(rec, 13) as usize,
    }
}

#[tactic(auto, unfolding(crate::specs::Layer::blit))]
fn blit_of(rec: &[u8; 348]) -> Blit
    ensures { result ≡ Layer.blit rec.now }
{
    Blit {
        x: whole(rec, 7),
        y: whole(rec, 8),
        r: real(rec, 11),
        alpha: word(rec, 14),
        dim: word(rec, 15),
    }
}

#[tactic(auto, unfolding(crate::specs::Layer::stretch))]
fn stretch_of(rec: &[u8; 348]) -> Stretch
    ensures { result ≡ Layer.stretch rec.now }
{
    Stretch {
        dest: rect_of(rec),
        r: real(rec, 11),
        alpha: real(rec, 14),
    }
}

#[tactic(auto, unfolding(crate::specs::Layer::target))]
fn target_of(rec: &[u8; 348]) -> Pt
    ensures { result ≡ Layer.target rec.now }
{
    Pt {
        x: real(rec, 15),
        y: real(rec, 16),
    }
}

#[tactic(auto, unfolding(crate::specs::Layer::flight))]
fn flight_of(rec: &[u8; 348]) -> Flight
    ensures { result ≡ Layer.flight rec.now }
{
    Flight {
        from: rect_of(rec),
        target: target_of(rec),
        t: real(rec, 17),
        alpha: real(rec, 14),
    }
}

// Three copies, each with numbers of its own: one function for them would take a closure of six
// parameters to save a call or two. The canvas is written, the record and the source are read.
#[tactic(auto, unfolding(crate::specs::Layer::straight))]
fn straight(px: &mut [u32], rec: &[u8; 348], src: &[u32])
    ensures { px.new ≡ Layer.straight rec.now src.now px.old }
{
    straight::blit_rounded_dim(
        px,
        records::size_of(rec),
        clip_of(rec),
        src,
        sides_of(rec),
        blit_of(rec),
    );
}

#[tactic(auto, unfolding(crate::specs::Layer::scaled))]
fn scaled(px: &mut [u32], rec: &[u8; 348], src: &[u32])
    ensures { px.new ≡ Layer.scaled rec.now src.now px.old }
{
    scaled::blit_scaled(
        px,
        records::size_of(rec),
        clip_of(rec),
        src,
        sides_of(rec),
        stretch_of(rec),
    );
}

#[tactic(auto, unfolding(crate::specs::Layer::genie_copy))]
fn genie_copy(px: &mut [u32], rec: &[u8; 348], src: &[u32])
    ensures { px.new ≡ Layer.genie_copy rec.now src.now px.old }
{
    genie::blit_genie(
        px,
        records::size_of(rec),
        clip_of(rec),
        src,
        sides_of(rec),
        flight_of(rec),
    );
}

// How a copy is made.
#[derive(Clone, Copy)]
enum Way {
    Straight,
    Scaled,
    Genie,
}

impl Way {
    // By the copy's number: every number from 2 on is the genie's.
    fn of_number(number: u32) -> Way
        ensures { result ≡ Layer.way number }
    {
        match number {
            0 => Way::Straight,
            1 => Way::Scaled,
            _ => Way::Genie,
        }
    }
}

// The copy of the record, by its number.
#[tactic(auto, unfolding(crate::specs::Layer::copied))]
fn copy(px: &mut [u32], rec: &[u8; 348], src: &[u32])
    ensures { px.new ≡ Layer.copied rec.now src.now px.old }
{
    match Way::of_number(word(rec, 0)) {
        Way::Straight => straight(px, rec, src),
        Way::Scaled => scaled(px, rec, src),
        Way::Genie => genie_copy(px, rec, src),
    }
}

// The copy of the source's own pixels, the first of src.
#[tactic(auto, unfolding(crate::specs::Layer::source_len))]
fn copy_first(px: &mut [u32], rec: &[u8; 348], src: &[u32])
    requires { length src.now ≡ 64 }
    ensures { px.new ≡ Layer.copied rec.now (take (Layer.source_len rec.now) src.now) px.old }
{
    let n = (word(rec, 18) as usize).min(64);
    copy(px, rec, &src[..n]);
}

// Whether the copy makes of the record's canvas what the Rust made of it.
fn replay(rec: &[u8; 348]) -> bool
    ensures { result ≡ Layer.replayed rec.now }
{
    let mut px = records::started(word(rec, 21), word(rec, 22));
    // no heap: the most pixels that a source has, of which the first are lent
    let src: [u32; 64] = records::started(word(rec, 19), word(rec, 20));
    copy_first(&mut px, rec, &src);
    records::is_recorded(&px, rec)
}

// The same, with the copy's place among the lines. Each program has an enum of its own, and so this function.
fn replayed(rec: &[u8; 348]) -> Replayed
    ensures { (result.same ≡ Layer.replayed rec.now) × (result.place ≡ min (Record.word rec.now 0) 2) }
{
    Replayed {
        place: Way::of_number(word(rec, 0)) as usize,
        same: replay(rec),
    }
}

fn main(rt: HostRuntime) -> io::Result<()> {
    let mut lines = [
        Line::new(b"blit_rounded_dim: "),
        Line::new(b"blit_scaled: "),
        Line::new(b"blit_genie: "),
    ];
    records::replay_all(
        &mut rt.stdin(),
        &mut lines,
        |input| records::replay_next(input, replayed),
    )?;
    records::report_all(&mut rt.stdout(), &lines)
}
