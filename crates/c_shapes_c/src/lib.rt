// The painters of shapes exported to C: the functions of `c_shapes`, by their names, each with its contract.
// A canvas, a rectangle and a flag go in as their numbers, since C's signatures have them so.
#![tactic(auto)]

ghost use Rattle.std.specs.Prelude.{◌≡◌, not, eqb};
ghost use Rattle.canvas.specs.Canvas.{painted_on};
ghost use Rattle.fill.specs.Fill.{fill_rule};
ghost use Rattle.stroke.specs.Stroke.{stroke_rule};
ghost use Rattle.shadow.specs.Shadow.{shadow_rule};
ghost use Rattle.c_shapes.specs.In.{color_of, paint_of};

#[unsafe(no_mangle)]
pub extern "C" fn shape_fill(
    px: &mut [u32],
    w: usize,
    h: usize,
    x0: i32,
    y0: i32,
    x1: i32,
    y1: i32,
    x: f32,
    y: f32,
    rw: f32,
    rh: f32,
    r: f32,
    kind: u32,
    c0: u32,
    c1: u32,
    n0: f32,
    n1: f32,
    n2: f32,
    n3: f32,
)
    ensures { px.new ≡ painted_on w h (fill_rule w h (record { x0 = x0; y0 = y0; x1 = x1; y1 = y1 }) (record { x = x; y = y; w = rw; h = rh }) r (paint_of kind c0 c1 n0 n1 n2 n3)) px.old }
{
    c_shapes::shape_fill(
        px, w, h, x0, y0, x1, y1, x, y, rw, rh, r, kind, c0, c1, n0, n1, n2, n3,
    );
}

#[unsafe(no_mangle)]
pub extern "C" fn shape_stroke(
    px: &mut [u32],
    w: usize,
    h: usize,
    x0: i32,
    y0: i32,
    x1: i32,
    y1: i32,
    x: f32,
    y: f32,
    rw: f32,
    rh: f32,
    r: f32,
    width: f32,
    color: u32,
)
    ensures { px.new ≡ painted_on w h (stroke_rule w h (record { x0 = x0; y0 = y0; x1 = x1; y1 = y1 }) (record { x = x; y = y; w = rw; h = rh }) r width (color_of color)) px.old }
{
    c_shapes::shape_stroke(px, w, h, x0, y0, x1, y1, x, y, rw, rh, r, width, color);
}

// `skip` is `skip_inside`: 0 is false.
#[unsafe(no_mangle)]
pub extern "C" fn shape_shadow(
    px: &mut [u32],
    w: usize,
    h: usize,
    x0: i32,
    y0: i32,
    x1: i32,
    y1: i32,
    x: f32,
    y: f32,
    rw: f32,
    rh: f32,
    r: f32,
    blur: f32,
    color: u32,
    skip: u32,
)
    ensures { px.new ≡ painted_on w h (shadow_rule w h (record { x0 = x0; y0 = y0; x1 = x1; y1 = y1 }) (record { x = x; y = y; w = rw; h = rh }) (record { r = r; blur = blur; color = color_of color; skip_inside = not (eqb skip 0) })) px.old }
{
    c_shapes::shape_shadow(px, w, h, x0, y0, x1, y1, x, y, rw, rh, r, blur, color, skip);
}
