// The brightness, over a row.
ghost use Rattle.std.specs.Prelude.{◌≡◌, ◌+◌, ◌-◌, ◌*◌, ◌/◌, ◌%◌, ◌≤◌, ◌<◌, min};
ghost use Rattle.canvas.specs.Rows.{map_row};
ghost use Rattle.panel.specs.Panel as Panels;

use super::Panel;

// Every pixel of a row with the panel's brightness. A pixel goes beside the panel: a value of both would be
// made anew for each.
pub fn lit_row(dst: &mut [u32], p: Panel)
    ensures { dst.new ≡ map_row (λ i q. Panels.lit p q) dst.old }
{
    if p.down == 0 {
        canvas::map_pixels(dst, |_, q| raised(p, q));
    } else if p.up == 0 {
        canvas::map_pixels(dst, |_, q| lowered(p, q));
    } else {
        canvas::map_pixels(dst, |_, q| super::lit(p, q));
    }
}

// Where nothing is taken, or nothing is added, red and blue go together. The two tricks with bits differ, so
// neither function stands for the other.

fn raised(p: Panel, q: u32) -> u32
    requires { p.down ≡ 0 }
    ensures { result ≡ Panels.lit p q }
{
    let up = u32::from(p.up);
    let rb = cut_two(q / 65536 % 256 * 65536 + q % 256 + up * 65537);
    let g = cut_two(q / 256 % 256 + up);
    rb + g * 256
}

// Two numbers of at most 510, at bits 16 and 0 of a word, each cut at 255: where a number's bit 8 is
// set, `|` fills the eight below it.
fn cut_two(f: u32) -> u32
    requires { (f / 65536 ≤ 510) × (f % 65536 ≤ 510) }
    ensures { result ≡ min (f / 65536) 255 * 65536 + min (f % 65536) 255 }
{
    let h = f / 16777216 * 65536 + f / 256 % 256;
    let r = f | h * 255;
    r / 65536 % 256 * 65536 + r % 256
}

// Each channel with 256 added and `down` taken, and then less 256 again.
fn lowered(p: Panel, q: u32) -> u32
    requires { p.up ≡ 0 }
    ensures { result ≡ Panels.lit p q }
{
    let rest = 256 - u32::from(p.down);
    let rb = less_two(q / 65536 % 256 * 65536 + q % 256 + rest * 65537);
    let g = less_two(q / 256 % 256 + rest);
    rb + g * 256
}

// Two numbers of at most 511, at bits 16 and 0 of a word, each less 256, or 0: where a number's bit 8 is
// not set, `&` clears the eight below it.
fn less_two(f: u32) -> u32
    requires { (f / 65536 ≤ 511) × (f % 65536 ≤ 511) }
    ensures { result ≡ (f / 65536 - 256) * 65536 + (f % 65536 - 256) }
{
    let h = f / 16777216 * 65536 + f / 256 % 256;
    f & h * 255
}
