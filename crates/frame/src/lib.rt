// The frame about a window, in the colour of its security domain.
#![tactic(auto)]

ghost use Rattle.std.specs.Prelude.{◌≡◌, ◌||◌, ◌+◌, ◌-◌, ◌*◌, ◌≤◌, ltb, leb, length};
ghost use Rattle.color.specs.Color.{red, blue};
ghost use Rattle.canvas.specs.Rows.{map_row};
ghost use Rattle.canvas.specs.Canvas.{painted_on};
ghost use Rattle.frame.specs.Frame as Frame;
ghost use Rattle.frame.specs.Private as Private;

use canvas::{Area, Size};

// A border is at least this thick, and this many rows are the title bar's.
const LEAST_BORDER: usize = 4;

const TITLE_ROWS: usize = 28;

// The colour over a window without its tint, and the alpha of x-ray.
const DARK: u32 = 0xf014_161a;

const XRAY_ALPHA: u8 = 96;

// The colours of a security domain as 0xAARRGGBB.
#[derive(Clone, Copy)]
struct TagColors {
    border: u32,
    tint: u32,
}

// A window's security domain: kash-ui's SecurityColorTag, in its order.
#[derive(Clone, Copy)]
enum SecurityTag {
    ObsidianAdmin,
    PurpleVault,
    MintPersonal,
    BlueWork,
    AmberUsb,
    RedUntrustedNet,
    MagentaDisposable,
}

// A number that names no domain.
#[derive(Clone, Copy)]
struct UnknownTag;

impl TryFrom<u8> for SecurityTag {
    type Error = UnknownTag;

    ghost try_from_gives = { Private.Names };

    fn try_from(tag: u8) -> Result<Self, UnknownTag> {
        match tag {
            0 => Ok(SecurityTag::ObsidianAdmin),
            1 => Ok(SecurityTag::PurpleVault),
            2 => Ok(SecurityTag::MintPersonal),
            3 => Ok(SecurityTag::BlueWork),
            4 => Ok(SecurityTag::AmberUsb),
            5 => Ok(SecurityTag::RedUntrustedNet),
            6 => Ok(SecurityTag::MagentaDisposable),
            _ => Err(UnknownTag),
        }
    }
}

impl SecurityTag {
    // Its border and its tint.
    #[tactic(auto, unfolding(crate::specs::Frame::tag_colors))]
    fn colors(self) -> TagColors
        ensures { result ≡ Frame.tag_colors (Private.number self) }
    {
        TAG_COLORS[self as usize]
    }
}

// The colours of the seven domains, in their order.
const TAG_COLORS: [TagColors; 7] = [
    TagColors {
        border: 0xffe1_e6f0,
        tint: 0xf512_1418,
    },
    TagColors {
        border: 0xffc5_8af9,
        tint: 0xf21c_1226,
    },
    TagColors {
        border: 0xff81_c995,
        tint: 0xf210_1c14,
    },
    TagColors {
        border: 0xff1a_73e8,
        tint: 0xf20f_1724,
    },
    TagColors {
        border: 0xfffa_903e,
        tint: 0xf222_160e,
    },
    TagColors {
        border: 0xffd9_3025,
        tint: 0xf224_0e0e,
    },
    TagColors {
        border: 0xfff5_38a0,
        tint: 0xf222_0e1a,
    },
];

// A window's place, and how thick its border is to be.
#[derive(Clone, Copy)]
pub struct GlassSurface {
    pub x: u32,
    pub y: u32,
    pub width: u32,
    pub height: u32,
    pub border_thickness: u32,
}

// What a frame is painted with: its border's colour, and the colour over the window at alpha a.
#[derive(Clone, Copy)]
struct Look {
    edge: u32,
    over: u32,
    a: u8,
}

impl GlassSurface {
    // The frame of the domain `tag`. The window shows through the domain's colour where x-ray is on,
    // else through its tint or a dark colour. A window that does not fit the canvas's width, or a tag
    // above 6, changes nothing. The tag is a number and the looks are two flags, as `frame_rule` has
    // them: C hands in any. Pixels and size are two, as `painted_on` has them: pixels that are no canvas
    // of the size come in, and stay.
    pub fn composite_secure_frame(self, px: &mut [u32], size: Size, tag: u8, tint: bool, xray: bool)
        ensures { px.new ≡ painted_on size.w size.h (Frame.frame_rule size.w size.h self tag tint xray) px.old }
    {
        let Ok(tag) = SecurityTag::try_from(tag) else {
            return;
        };
        let area = self.area();
        if area.x1 <= size.w {
            let b = self.border_px();
            let height = self.height as usize;
            let look = look_of(tag, tint, xray);
            canvas::paint_rows(
                px,
                size,
                area,
                |y, row| frame_row(row, y - area.y0, b, height, look),
            );
        }
    }

    // The window and its frame. Its far sides may lie past the canvas's.
    fn area(self) -> Area
        ensures { result ≡ record { x0 = self.x; y0 = self.y; x1 = self.x + self.width; y1 = self.y + self.height } }
    {
        Area {
            x0: self.x as usize,
            y0: self.y as usize,
            x1: self.x as usize + self.width as usize,
            y1: self.y as usize + self.height as usize,
        }
    }

    #[tactic(auto, unfolding(crate::specs::Frame::border_px))]
    fn border_px(self) -> usize
        ensures { result ≡ Frame.border_px self }
    {
        (self.border_thickness as usize).max(LEAST_BORDER)
    }
}

// The two flags come as they are: an enum of three looks would be made and matched here alone.
#[tactic(auto, unfolding(crate::specs::Private::look_of, crate::specs::Frame::bg_color))]
fn look_of(tag: SecurityTag, tint: bool, xray: bool) -> Look
    ensures { result ≡ Private.look_of (Private.number tag) tint xray }
{
    let colors = tag.colors();
    let bg = if tint { colors.tint } else { DARK };
    let [alpha, _, _, _] = bg.to_be_bytes();
    let (over, a) = if xray {
        (colors.border, XRAY_ALPHA)
    } else {
        (bg, alpha)
    };
    Look {
        edge: colors.border,
        over,
        a,
    }
}

// Row `row` of `height`, under a border of b.
fn frame_row(dst: &mut [u32], row: usize, b: usize, height: usize, look: Look)
    ensures { dst.new ≡ map_row (λ i p. Private.framed look ((ltb row b || leb (height - b) row || ltb row 28) || (ltb i b || leb (length dst.old - b) i)) p) dst.old }
{
    if is_border_row(row, b, height) {
        canvas::row_fill(dst, look.edge);
    } else {
        let left = b.min(dst.len());
        let right = left.max(dst.len().saturating_sub(b));
        inner_row(dst, left, right, look);
    }
}

// The title bar's rows are the border's too.
fn is_border_row(row: usize, b: usize, height: usize) -> bool
    ensures { result ≡ ltb row b || leb (height - b) row || ltb row 28 }
{
    row < b || row >= height.saturating_sub(b) || row < TITLE_ROWS
}

// The border up to `left` and from `right` on, and the window between them.
fn inner_row(dst: &mut [u32], left: usize, right: usize, look: Look)
    requires { (left ≤ right) × (right ≤ length dst.old) }
    ensures { dst.new ≡ map_row (λ i p. Private.framed look (ltb i left || leb right i) p) dst.old }
{
    canvas::row_fill(&mut dst[..left], look.edge);
    canvas::map_pixels(
        &mut dst[left..right],
        |_, p| blend_pixel(p, look.over, look.a),
    );
    canvas::row_fill(&mut dst[right..], look.edge);
}

// src at alpha a over dst; the top byte becomes FF.
fn blend_pixel(dst: u32, src: u32, a: u8) -> u32
    ensures { result ≡ Frame.blend_pixel dst src a }
{
    let rb = blend_two(dst, src, a);
    let g = blend_two(dst / 256 % 256, src / 256 % 256, a);
    0xff00_0000 + (rb + g * 256)
}

// Red and blue in one word, so by quotients and not as bytes: the product of one does not reach into
// the other.
fn blend_two(dst: u32, src: u32, a: u8) -> u32
    ensures { result ≡ Frame.blend_ch a (red src) (red dst) * 65536 + Frame.blend_ch a (blue src) (blue dst) }
{
    let c = src / 65536 % 256 * 65536 + src % 256;
    let d = dst / 65536 % 256 * 65536 + dst % 256;
    let m = c * a as u32 + d * (255 - a) as u32;
    m / 16777216 * 65536 + m / 256 % 256
}
