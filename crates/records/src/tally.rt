// What the programs that replay records share: the next record, the counts and the lines on them.
ghost use Rattle.std.specs.Prelude.{◌≡◌, ℕ, min, List, length, OnOk, IfOk, IfSome, Some};
ghost use Rattle.std.specs.Bool.{OnTrue};
ghost use Rattle.std.specs.Io.KnownBytes.{Appends, Consumes};
ghost use Rattle.std.specs.Fn.{FnReturnsAt};
ghost use Rattle.records.specs.Calls.{Gives, GivesAll};
ghost use Rattle.records.specs.Record as Record;

use std::fmt::{Display, Formatter};
use std::io::{ErrorKind, Read, Write};
use std::{fmt, io};

// How often a painter was replayed, and how often it made something else.
#[derive(Clone, Copy, Default)]
pub struct Counts {
    pub cases: u64,
    pub differ: u64,
}

impl Counts {
    // One replay more, and one more that differs where something else was made: the bool is what was found.
    pub fn add(&mut self, same: bool)
        ensures { self.new ≡ Record.with_one self.old same }
    {
        self.cases = self.cases.wrapping_add(1);
        if !same {
            self.differ = self.differ.wrapping_add(1);
        }
    }
}

impl Display for Counts {
    ghost output = { λ counts. Some (Record.told counts) };

    fn fmt<W: fmt::Write>(&self, f: &mut Formatter<W>) -> fmt::Result {
        write!(f, "{} cases, {} differ", self.cases, self.differ)
    }
}

// A line of what is reported: a painter's name, written as it is, and its count. The name is in bytes, since a `&str` would
// ask that it is text.
#[derive(Clone, Copy)]
pub struct Line<'a> {
    pub name: &'a [u8],
    pub counts: Counts,
}

impl<'a> Line<'a> {
    pub fn new(name: &'a [u8]) -> Line<'a>
        ensures { (result.name.now ≡ name.now) × (result.counts ≡ record { cases = 0; differ = 0 }) }
    {
        Line {
            name,
            counts: Counts::default(),
        }
    }
}

// What a record was found to be: the place of its painter's line, and whether the painter made the same. A place is a
// number, since each program has painters of its own.
#[derive(Clone, Copy)]
pub struct Replayed {
    pub place: usize,
    pub same: bool,
}

// One replay more on line k. There is none behind the last: then nothing is counted.
pub fn count(lines: &mut [Line], k: usize, same: bool)
    ensures { lines.new ≡ Record.counted lines.old k same }
{
    if k < lines.len() {
        lines[k].counts.add(same);
    }
}

// Line k, and nothing where there is none. An error leaves what was written before it.
pub fn report<W: Write>(out: &mut W, lines: &[Line], k: usize) -> io::Result<()>
    ensures { OnOk result (Appends (W.contents out.old) (W.contents out.new) (Record.line lines.now k)) }
{
    if k >= lines.len() {
        return Ok(());
    }
    let line = lines[k];
    let (cases, differ) = (line.counts.cases, line.counts.differ);
    out.write_all(line.name)?;
    // By its two numbers: by the `Display` of a count the line's end would be a write of its own.
    writeln!(out, "{cases} cases, {differ} differ")
}

// Every line, one behind the other, by its place, as `report` takes it.
pub fn report_all<W: Write>(out: &mut W, lines: &[Line]) -> io::Result<()>
    ensures { OnOk result (Appends (W.contents out.old) (W.contents out.new) (Record.lines lines.now (length lines.now))) }
{
    for k in 0..lines.len() {
        report(out, lines, k)?;
    }
    Ok(())
}

// Reads until the bytes are full or the input ends: whether they are full, a bool, since the bytes are the caller's and
// no value is left for an Option. They keep their length on an error too.
pub fn read_whole<R: Read>(input: &mut R, bytes: &mut [u8]) -> io::Result<bool>
    ensures len { length bytes.new ≡ length bytes.old }
    ensures next { IfOk result (λ whole. OnTrue whole (Consumes (R.remaining input.old) (R.remaining input.new) bytes.new)) }
{
    match input.read_exact(bytes) {
        Ok(()) => Ok(true),
        Err(e) if e.kind() == ErrorKind::UnexpectedEof => Ok(false),
        Err(e) => Err(e),
    }
}

// The next record, where there is a whole one.
pub fn read_next<R: Read, const N: usize>(input: &mut R) -> io::Result<Option<[u8; N]>>
    ensures { IfOk result (λ next. IfSome next (λ rec. (length rec ≡ N) × Consumes (R.remaining input.old) (R.remaining input.new) rec)) }
{
    let mut rec = [0u8; N];
    Ok(read_whole(input, &mut rec)?.then_some(rec))
}

// The next record, replayed, where there is a whole one. A bound has no clause, so each function that calls a closure asks
// that it may be called.
pub fn replay_next<R, F>(input: &mut R, replay: F) -> io::Result<Option<Replayed>>
where
    R: Read,
    F: Fn(&[u8; 348]) -> Replayed,
    requires { F.IsAlwaysCallable replay }
    ensures { IfOk result (λ next. IfSome next (λ r. (rec : List ℕ) × (length rec ≡ 348) × Consumes (R.remaining input.old) (R.remaining input.new) rec × FnReturnsAt F.Fn replay rec r)) }
{
    match read_next(input)? {
        Some(rec) => Ok(Some(replay(&rec))),
        None => Ok(None),
    }
}

// The input's next bytes, as many as `len` says and `room` holds, handed to `f`. Those behind the input's end are not
// settled.
pub fn read_part<R, F>(input: &mut R, room: &mut [u8], len: usize, f: F) -> io::Result<bool>
where
    R: Read,
    F: Fn(&mut [u8]) -> bool,
    requires { F.IsAlwaysCallable f }
    ensures lent { IfOk result (λ r. (bytes : List ℕ) × (left : List ℕ) × (length bytes ≡ min len (length room.old)) × Gives F.Fn f bytes r left) }
    ensures room { length room.new ≡ length room.old }
{
    let n = len.min(room.len());
    fill_and_lend(input, &mut room[..n], f)
}

fn fill_and_lend<R, F>(input: &mut R, bytes: &mut [u8], f: F) -> io::Result<bool>
where
    R: Read,
    F: Fn(&mut [u8]) -> bool,
    requires { F.IsAlwaysCallable f }
    ensures lent { IfOk result (λ r. (read : List ℕ) × (left : List ℕ) × (length read ≡ length bytes.old) × Gives F.Fn f read r left) }
    ensures len { length bytes.new ≡ length bytes.old }
{
    read_whole(input, bytes)?;
    Ok(f(bytes))
}

// Replays to the input's end, and counts each replay on its painter's line. `next` replays one record, or answers None
// where the input ends.
pub fn replay_all<R, F>(input: &mut R, lines: &mut [Line], next: F) -> io::Result<()>
where
    R: Read,
    F: Fn(&mut R) -> io::Result<Option<Replayed>>,
    requires { F.IsAlwaysCallable next }
    ensures { (seen : List Replayed) × GivesAll F.Fn next input.old seen result input.new × (lines.new ≡ Record.all_counted lines.old seen) }
{
    // a proved loop has to end, and nothing says that the input does
    for _ in 0..u64::MAX {
        let Some(r) = next(input)? else {
            break;
        };
        count(lines, r.place, r.same);
    }
    Ok(())
}
