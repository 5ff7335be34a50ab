// Asks for the dearest panels of recorded canvases and blurs, and compares each answer, and a sum of the bytes left, with
// those that a reading of the rules in Rust gave. compare/dearest/src/record.rs says what a record holds.
#![tactic(auto)]

ghost use Rattle.std.specs.Prelude.{◌≡◌, min};
ghost use Rattle.records.specs.Record as Record;
ghost use Rattle.replay_dearest.specs.Asked as Asked;

use records::{Line, Replayed, word};
use std::io;
use std::num::f32_from_bits_with_nan;

// Whether the answer is the recorded one, and so is the sum of the bytes that are left of these.
#[tactic(auto, unfolding(crate::specs::Asked::replayed_over, crate::specs::Asked::blur_of))]
fn replay_over(rec: &[u8; 348], block: &mut [u8; 512]) -> bool
    ensures { result ≡ Asked.replayed_over rec.now block.old }
{
    let blur = f32_from_bits_with_nan(word(rec, 2));
    // one number, as the answer comes from the function for C
    let recorded = records::pair(word(rec, 3), word(rec, 4));
    let answer = tiglostrema::tiglostrema_dearest(word(rec, 0), word(rec, 1), blur, block);
    answer == recorded && records::sum(block) == word(rec, 6)
}

// The same of 512 bytes that all are the low bits of word 5, as a cast that cuts takes them.
#[tactic(auto, unfolding(crate::specs::Asked::replayed))]
fn replay(rec: &[u8; 348]) -> bool
    ensures { result ≡ Asked.replayed rec.now }
{
    let mut block = [(word(rec, 5) % 256) as u8; 512];
    replay_over(rec, &mut block)
}

// What the recorded answer was.
#[derive(Clone, Copy)]
enum Outcome {
    Told,
    RefusedForSize,
    RefusedForBlur,
}

impl Outcome {
    // By the number of the recorded cause: 0 is none, 1 the size, and 6, the only other one, the blur.
    fn of_number(number: u32) -> Outcome
        ensures { result ≡ Asked.outcome number }
    {
        match number {
            0 => Outcome::Told,
            1 => Outcome::RefusedForSize,
            _ => Outcome::RefusedForBlur,
        }
    }
}

// The same, with the recorded outcome's place among the lines. Each program has an enum of its own, and so this function.
fn replayed(rec: &[u8; 348]) -> Replayed
    ensures { (result.same ≡ Asked.replayed rec.now) × (result.place ≡ min (Record.word rec.now 3) 2) }
{
    Replayed {
        place: Outcome::of_number(word(rec, 3)) as usize,
        same: replay(rec),
    }
}

fn main(rt: HostRuntime) -> io::Result<()> {
    let mut lines = [
        Line::new(b"told: "),
        Line::new(b"refused for the size: "),
        Line::new(b"refused for the blur: "),
    ];
    records::replay_all(
        &mut rt.stdin(),
        &mut lines,
        |input| records::replay_next(input, replayed),
    )?;
    records::report_all(&mut rt.stdout(), &lines)
}
