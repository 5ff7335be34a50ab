// The program playout: plays the rundown on standard input on a small black canvas, and prints the layer count and the
// canvas, or the refusal.
#![tactic(auto)]

ghost use Rattle.std.specs.Prelude.{◌≡◌, [], ◌∷◌, ◌++◌, ◌+◌, ◌≤◌, ◌<◌, length, take, drop, IfOk};
ghost use Rattle.answer.specs.Answer.{number};
ghost use Rattle.playout.specs.Printed as Printed;
ghost use Rattle.playout.specs.Put.{Put};

use accept::Show;
use answer::{Cause, Refusal};
use canvas::Size;
use color::Color;
use std::io;
use std::io::{Read, Write};

// ---- text: each function puts some at `at`, and answers the place behind it. By hand: `write!` answers a `Result`, and std
// does not say that it is Ok where there is room.

fn put(out: &mut [u8; 80], at: usize, b: u8) -> usize
    requires { at < 80 }
    ensures { Put (b ∷ []) out.old at out.new result }
{
    out[at] = b;
    at + 1
}

fn put_text(out: &mut [u8; 80], at: usize, text: &str) -> usize
    requires { at + length text.now ≤ 80 }
    ensures { Put text.now out.old at out.new result }
{
    let end = at + text.len();
    out[at..end].copy_from_slice(text.as_bytes());
    end
}

fn digit(d: usize) -> u8
    requires { d < 16 }
    ensures { result ≡ Printed.digit d }
{
    if d < 10 { 48 + d as u8 } else { 55 + d as u8 }
}

fn put_decimal(out: &mut [u8; 80], at: usize, n: usize) -> usize
    requires { at + 3 ≤ 80 }
    ensures { Put (Printed.decimal n) out.old at out.new result }
{
    if n < 10 {
        return put(out, at, digit(n));
    }
    if n < 100 {
        let ones = put(out, at, digit(n / 10));
        return put(out, ones, digit(n % 10));
    }
    let tens = put(out, at, digit(n / 100 % 10));
    let ones = put(out, tens, digit(n / 10 % 10));
    put(out, ones, digit(n % 10))
}

// A byte in hexadecimal.
fn put_byte(out: &mut [u8; 80], at: usize, v: u8) -> usize
    requires { at + 2 ≤ 80 }
    ensures { Put (Printed.byte v) out.old at out.new result }
{
    let low = put(out, at, digit(usize::from(v / 16)));
    put(out, low, digit(usize::from(v % 16)))
}

// A pixel's low 24 bits.
fn put_pixel(out: &mut [u8; 80], at: usize, p: u32) -> usize
    requires { at + 6 ≤ 80 }
    ensures { Put (Printed.pixel p) out.old at out.new result }
{
    let c = Color::from_pix(p);
    let green = put_byte(out, at, c.r);
    let blue = put_byte(out, green, c.g);
    put_byte(out, blue, c.b)
}

// What follows pixel i: a line end after the last of a row.
#[tactic(auto, unfolding(crate::specs::Printed::follow))]
fn follow(i: usize) -> &'static str
    ensures { result.now ≡ Printed.follow i }
{
    if i % 4 == 3 { "\n" } else { " " }
}

// The canvas, four wide.
fn put_pixels(out: &mut [u8; 80], at: usize, px: &[u32; 8]) -> usize
    requires { at + 56 ≤ 80 }
    ensures { Put (Printed.pixels px.now 8) out.old at out.new result }
{
    let mut to = at;
    for (i, p) in px.iter().enumerate() {
        let space = put_pixel(out, to, *p);
        to = put_text(out, space, follow(i));
    }
    to
}

// ---- the program: each function puts a whole text at the front, and answers how long it is

fn put_layers(out: &mut [u8; 80], n: usize, px: &[u32; 8]) -> usize
    ensures { Put (Printed.layers n px.now) out.old 0 out.new result }
{
    let a = put_text(out, 0, "layers ");
    let b = put_decimal(out, a, n);
    let c = put_text(out, b, "\n");
    put_pixels(out, c, px)
}

fn put_refused(out: &mut [u8; 80], r: Refusal) -> usize
    ensures { Put (Printed.refused (number r.cause) r.beside) out.old 0 out.new result }
{
    let a = put_text(out, 0, "refused ");
    let b = put_decimal(out, a, u32::from(r.cause) as usize);
    let c = put_text(out, b, " block ");
    let d = put_decimal(out, c, r.beside);
    put_text(out, d, "\n")
}

fn put_played(out: &mut [u8; 80], input: &[u8]) -> usize
    ensures { Put (Printed.played input.now) out.old 0 out.new result }
{
    let mut px = [0u32; 8];
    let table = [2u32, 1, 1, 1];
    let pool = [0x112233u32, 0x445566, 0xffffff];
    let mut a = [0u8; 24];
    let mut b = [0u8; 24];
    let show = Show {
        rundown: input,
        size: Size { w: 4, h: 2 },
        table: &table,
    };
    match play::play(show, &mut px, &pool, &mut a, &mut b) {
        Ok(n) => put_layers(out, n, &px),
        Err(r) => put_refused(out, r),
    }
}

// The most bytes that are played: 128 blocks of 512.
const MOST: usize = 65536;

// What is printed for the input; bytes behind it stay.
fn playout(input: &[u8], out: &mut [u8; 80]) -> usize
    requires { length out.old ≡ 80 }
    ensures text { out.new ≡ Printed.printed input.now ++ drop result out.old }
    ensures end { (result ≡ length (Printed.printed input.now)) × (result ≤ 80) × (result ≤ length out.new) × (result ≡ length (take result out.new)) }
{
    if input.len() > MOST {
        return put_refused(out, Cause::Rundown.at(0));
    }
    put_played(out, input)
}

// Reads until the bytes are full or the input ends: how many were read.
fn read_most<R: Read>(input: &mut R, bytes: &mut [u8]) -> io::Result<usize>
    ensures read { IfOk result (λ n. n ≤ length bytes.old) }
    ensures kept { length bytes.new ≡ length bytes.old }
{
    let mut n = 0;
    // a while: a step is as long as what was read. `read_to_end` wants the heap, `read_exact` hides how much came
    while n < bytes.len() {
        match input.read(&mut bytes[n..])? {
            0 => break,
            more => n += more,
        }
    }
    Ok(n)
}

fn main(rt: HostRuntime) -> io::Result<()> {
    // one byte more than is played, so that a longer input is seen; an array, since there is no heap
    let mut input = [0u8; MOST + 1];
    let n = read_most(&mut rt.stdin(), &mut input)?;
    let mut out = [0u8; 80];
    let k = playout(&input[..n], &mut out);
    // at once, so that no later write fails where the reader closes after the first bytes
    rt.stdout().write_all(&out[..k])
}
