// Plays recorded rundowns with the proved library, and compares each answer and each canvas with what a reading of the tests
// in Rust answered and kash-ui painted, and each forecast's sums with that reading's. compare/rundowns/src/record.rs says
// what a record holds.
#![tactic(auto)]

ghost use Rattle.std.specs.Prelude.{◌≡◌, List, ℕ, ◌≤◌, length, IfOk};
ghost use Rattle.replay_rundowns.specs.Recorded as Recorded;

use records::{Line, Replayed, word};
use std::io;
use std::io::Read;

// Word i as a length, of at most so many.
#[tactic(auto, unfolding(crate::specs::Recorded::len))]
fn len_of(rec: &[u8; 348], i: usize, most: usize) -> usize
    ensures { (result ≡ Recorded.len rec.now i most) × (result ≤ most) }
{
    (word(rec, i) as usize).min(most)
}

#[tactic(auto, unfolding(crate::specs::Recorded::words))]
fn words(rec: &[u8; 348]) -> [u32; 8]
    ensures { result ≡ Recorded.words rec.now }
{
    std::array::from_fn(|i| word(rec, 13 + i))
}

// Whether it is the recorded answer.
#[tactic(auto, unfolding(crate::specs::Recorded::is_answer))]
fn is_answer(rec: &[u8; 348], answer: u64) -> bool
    ensures { result ≡ Recorded.is_answer rec.now answer }
{
    // one number, as the answer comes from the function for C
    answer == records::pair(word(rec, 7), word(rec, 8))
}

// Whether these are the recorded sums of the forecast: the scratch of each slice, and the cells.
#[tactic(auto, unfolding(crate::specs::Recorded::are_totals))]
fn are_totals(rec: &[u8; 348], totals: &[u64; 2]) -> bool
    ensures { result ≡ Recorded.are_totals rec.now totals.now }
{
    let scratch = u64::from(word(rec, 21));
    let cells = u64::from(word(rec, 22));
    totals[0] == scratch && totals[1] == cells
}

// Whether the forecast's sums are the recorded ones: a refusal leaves the zeros.
#[tactic(auto, unfolding(crate::specs::Recorded::foretold))]
fn is_foretold(rec: &[u8; 348], table: &[u32], rundown: &[u8]) -> bool
    ensures { result ≡ Recorded.foretold rec.now table.now rundown.now }
{
    let mut boxes = [0i32; 1024];
    let mut totals = [0u64; 2];
    let width = word(rec, 0);
    let height = word(rec, 1);
    tiglostrema::tiglostrema_forecast(rundown, width, height, table, &mut boxes, &mut totals);
    are_totals(rec, &totals)
}

// Whether the play's answer and its canvas, and the forecast's sums, are the recorded ones: each is looked at, whatever the
// others are. Its slices are those that play takes, and a struct of them would be taken apart at once.
#[tactic(auto, unfolding(crate::specs::Recorded::replayed, crate::specs::Recorded::before))]
fn replay(
    rec: &[u8; 348],
    table: &[u32],
    pool: &[u32],
    rundown: &[u8],
    a: &mut [u8],
    b: &mut [u8],
) -> bool
    ensures { result ≡ Recorded.replayed rec.now table.now pool.now rundown.now (length a.old) (length b.old) }
{
    let mut px = records::started(word(rec, 9), word(rec, 10));
    let width = word(rec, 0);
    let height = word(rec, 1);
    let answer = tiglostrema::tiglostrema_play(rundown, width, height, &mut px, table, pool, a, b);
    is_answer(rec, answer) & records::is_recorded(&px, rec) & is_foretold(rec, table, rundown)
}

// Lends what the record says.
#[tactic(auto, unfolding(crate::specs::Recorded::as_recorded, crate::specs::Recorded::pool))]
fn lend(rec: &[u8; 348], rundown: &[u8]) -> bool
    ensures { result ≡ Recorded.as_recorded rec.now rundown.now }
{
    // no heap: the most that a record has, of which the first are lent
    let table = words(rec);
    let pool: [u32; 256] = records::started(word(rec, 11), word(rec, 12));
    let mut a = [0u8; 256];
    let mut b = [0u8; 256];
    let m = len_of(rec, 2, 256);
    let t = len_of(rec, 3, 8);
    let la = len_of(rec, 5, 256);
    let lb = len_of(rec, 6, 256);
    replay(
        rec,
        &table[..t],
        &pool[..m],
        rundown,
        &mut a[..la],
        &mut b[..lb],
    )
}

// The rundown's bytes stand behind the record: as many as word 4 says. The answer is settled by what was read.
fn read_and_lend<R: Read>(input: &mut R, rec: &[u8; 348]) -> io::Result<bool>
    ensures { IfOk result (λ same. (rundown : List ℕ) × (length rundown ≡ Recorded.len rec.now 4 2560) × (same ≡ Recorded.as_recorded rec.now rundown)) }
{
    let mut room = [0u8; 2560];
    records::read_part(
        input,
        &mut room,
        word(rec, 4) as usize,
        |rundown| lend(rec, rundown),
    )
}

// What the recorded answer was.
#[derive(Clone, Copy)]
enum Outcome {
    Accepted,
    Refused,
}

impl Outcome {
    // By the number of the recorded cause: 0 is none.
    fn of_number(number: u32) -> Outcome
        ensures { result ≡ Recorded.outcome number }
    {
        match number {
            0 => Outcome::Accepted,
            _ => Outcome::Refused,
        }
    }
}

// Replays the next record. None where the input ends before its rundown. What a record is followed by differs from program
// to program, and so this function.
fn replay_next<R: Read>(input: &mut R) -> io::Result<Option<Replayed>> {
    let Some(rec) = records::read_next(input)? else {
        return Ok(None);
    };
    Ok(Some(Replayed {
        place: Outcome::of_number(word(&rec, 7)) as usize,
        same: read_and_lend(input, &rec)?,
    }))
}

fn main(rt: HostRuntime) -> io::Result<()> {
    let mut lines = [Line::new(b"accepted: "), Line::new(b"refused: ")];
    records::replay_all(&mut rt.stdin(), &mut lines, |input| replay_next(input))?;
    records::report_all(&mut rt.stdout(), &lines)
}
