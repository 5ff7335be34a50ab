// Where each field of a block stands, by 01's list of offsets.
pub const KIND: usize = 0;

pub const FLAGS: usize = 1;

pub const PRIORITY: usize = 2;

pub const SOURCE: usize = 4;

pub const X: usize = 8;

pub const Y: usize = 12;

pub const WIDTH: usize = 16;

pub const HEIGHT: usize = 20;

pub const BORDER: usize = 24;

pub const TAG: usize = 28;

pub const PAINT: usize = 29;

pub const RECT: usize = 32;

pub const RADIUS: usize = 48;

pub const BLUR: usize = 52;

pub const COLOUR: usize = 56;

pub const SATURATION: usize = 60;

pub const BRIGHTNESS: usize = 64;

pub const BEZEL: usize = 68;

pub const SPEC: usize = 72;

pub const ALPHA: usize = 76;

pub const DIM: usize = 80;

pub const F_ALPHA: usize = 84; // float alpha

pub const TIME: usize = 88;

pub const TARGET: usize = 92;

pub const STROKE: usize = 100; // stroke width

pub const TABLE: usize = 104;

pub const CLIP: usize = 236;

pub const SECOND: usize = 252;

pub const NUMBERS: usize = 256;

pub const CHECK: usize = 508;
