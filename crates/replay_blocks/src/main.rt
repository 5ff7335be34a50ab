// Puts recorded blocks to the proved tests, alone or at a place of a buffer, and recorded calls to add and remove, and
// compares each answer, and a sum of the bytes left, with those that a reading of the rules in Rust gave.
// compare/blocks/src/record.rs says what a record holds.
#![tactic(auto)]

ghost use Rattle.std.specs.Prelude.{◌≡◌, List, ℕ, length, IfOk};
ghost use Rattle.replay_blocks.specs.Asked as Asked;
ghost use Rattle.replay_blocks.specs.Private.{settled_len, Begins, IsAsked};

use records::{Line, Replayed, word};
use std::io;
use std::io::Read;

// What a record asks.
#[derive(Clone, Copy, PartialEq, Eq)]
enum Ask {
    Judge,
    Add,
    Remove,
    JudgeAt,
}

impl Ask {
    // By its number: every number from 3 on asks for the tests of the block at a place.
    fn of_number(number: u32) -> Ask
        ensures { IsAsked number result }
    {
        match number {
            0 => Ask::Judge,
            1 => Ask::Add,
            2 => Ask::Remove,
            _ => Ask::JudgeAt,
        }
    }
}

// A recorded call: its head of eight words, and the bytes of the block that it adds, zeros where it adds none.
#[derive(Drop)]
struct Call {
    head: [u8; 32],
    new: [u8; 508],
}

impl Call {
    fn ask(&self) -> Ask
        ensures { IsAsked (Asked.word self.now.head 0) result }
    {
        Ask::of_number(word(&self.head, 0))
    }

    // The count of blocks or the place that is handed in.
    #[tactic(auto, unfolding(crate::specs::Asked::handed))]
    fn handed(&self) -> usize
        ensures { result ≡ Asked.handed self.now.head }
    {
        records::pair(word(&self.head, 2), word(&self.head, 1)) as usize
    }

    // The priority of the block that is to go: the word's low bits, as a cast that cuts takes them.
    #[tactic(auto, unfolding(crate::specs::Asked::gone))]
    fn gone(&self) -> u16
        ensures { result ≡ Asked.gone self.now.head }
    {
        (word(&self.head, 3) % 0x1_0000) as u16
    }

    // What is asked, answered.
    fn answer(&self, buf: &mut [u8]) -> u64
        ensures answer { result ≡ Asked.answered self.now.head self.now.new buf.old }
        ensures left { Begins buf.old (settled_len (Asked.word self.now.head 0) result (length buf.old)) (Asked.bytes_left self.now.head self.now.new buf.old) buf.new }
    {
        match self.ask() {
            Ask::Judge => c_blocks::block_judge(buf),
            Ask::Add => tiglostrema::tiglostrema_add(buf, self.handed(), &self.new),
            Ask::Remove => tiglostrema::tiglostrema_remove(buf, self.handed(), self.gone()),
            Ask::JudgeAt => c_blocks::block_judge_at(buf, self.handed()),
        }
    }

    // How many bytes at the buffer's front are settled: of an accepted add or remove those of the blocks, else all.
    #[tactic(auto, unfolding(crate::specs::Private::settled_len))]
    fn settled_len(&self, answer: u64, len: usize) -> usize
        ensures { result ≡ settled_len (Asked.word self.now.head 0) answer len }
    {
        // one number tells a count and a refusal apart, as the answer comes from the functions for C
        if answer >= 0x1_0000_0000 {
            return len;
        }
        match self.ask() {
            Ask::Add | Ask::Remove => 512 * (answer as usize),
            Ask::Judge | Ask::JudgeAt => len,
        }
    }

    // Whether the answer is the recorded one, and so is the sum of the bytes left.
    fn replay(&self, buf: &mut [u8]) -> bool
        ensures { result ≡ Asked.replayed self.now.head self.now.new buf.old }
    {
        let recorded = records::pair(word(&self.head, 5), word(&self.head, 6));
        let answer = self.answer(buf);
        let end = self.settled_len(answer, buf.len());
        let left = records::sum(&buf[..end]);
        (answer == recorded) & (left == word(&self.head, 7))
    }
}

// The next call but for its buffer, where there is a whole one.
fn read_next<R: Read>(input: &mut R) -> io::Result<Option<Call>> {
    let Some(head) = records::read_next(input)? else {
        return Ok(None);
    };
    let mut call = Call {
        head,
        new: [0u8; 508],
    };
    if call.ask() == Ask::Add && !records::read_whole(input, &mut call.new)? {
        return Ok(None);
    }
    Ok(Some(call))
}

// The record's last bytes are its buffer: reads them, and asks what the head says. The answer is settled by what was read.
fn read_and_replay<R: Read>(input: &mut R, call: &Call) -> io::Result<bool>
    ensures { IfOk result (λ same. (buf : List ℕ) × (length buf ≡ Asked.buffer_len call.now.head) × (same ≡ Asked.replayed call.now.head call.now.new buf)) }
{
    // no heap: the most that a record has, of which the first are lent
    let mut room = [0u8; 2048];
    let len = word(&call.head, 4) as usize;
    records::read_part(input, &mut room, len, |buf| call.replay(buf))
}

// Replays the next record. None where the input ends before its buffer. What a record is followed by differs from program to
// program, and so this function.
fn replay_next<R: Read>(input: &mut R) -> io::Result<Option<Replayed>> {
    let Some(call) = read_next(input)? else {
        return Ok(None);
    };
    Ok(Some(Replayed {
        place: call.ask() as usize,
        same: read_and_replay(input, &call)?,
    }))
}

fn main(rt: HostRuntime) -> io::Result<()> {
    let mut lines = [
        Line::new(b"blocks: "),
        Line::new(b"add: "),
        Line::new(b"remove: "),
        Line::new(b"places: "),
    ];
    records::replay_all(&mut rt.stdin(), &mut lines, |input| replay_next(input))?;
    records::report_all(&mut rt.stdout(), &lines)
}
