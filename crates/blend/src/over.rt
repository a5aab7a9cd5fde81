// Inputs laid over each other, for a stripe: a run of samples of a plane, row after row.
ghost use Rattle.std.specs.Prelude.{◌≡◌, ℕ, ◌+◌, ◌*◌, ◌-◌, ◌/◌, ◌<◌, ◌≤◌, ◌^◌, ◌&&◌, true, eqb, leb, ltb, length, get_or};
ghost use Rattle.laws.specs.Pick.{pick};
ghost use Rattle.image.specs.Format.{has_alpha, bytes_of};
ghost use Rattle.derived.specs.inner.Sound.{OverlaySound};
ghost use Rattle.blend.specs.Overlay.{over_colour, over_alpha, over, covers, base, spot_at, over_at, over_all};
ghost use Rattle.inputs.specs.Layers.{layers_of};
ghost use Rattle.records.specs.inner.Frames.{frames_from};
ghost use Rattle.blend.specs.inner.Row.{RowLaid, DepthTop, Stands, bytes_at, is_colour};
ghost use Rattle.blend.specs.inner.Stripe.{layer_with, across_at, down_at, StripeFits, Held, alpha_in, OverRowFits, row_over};
ghost use Rattle.records.specs.inner.Placed.{InSlice};

use crate::row::{colour_row, opacity_row, opaque_row};
use derived::{OverlayDescriptor, Placement};
use image::{Part, PixelFormat};
use numbers::Offset;
use opaque::{reach, step_of};
use records::Frame;

// Colour times opacity under an input's sample m of alpha a.
fn over_colour(top: u16, m: u16, a: u16, premultiplied: bool, v: u32) -> u32
    requires { 1 ≤ top }
    ensures { result ≡ over_colour top m a premultiplied v }
{
    let t = top as usize;
    let m = m as usize;
    let a = a as usize;
    let under = (v as usize * t.saturating_sub(a) + t / 2) / t;
    if premultiplied {
        (m * t + under).min(t * t) as u32
    } else {
        (m * a + under).min(t * t) as u32
    }
}

// Opacity under an input's alpha a.
fn over_alpha(top: u16, a: u16, v: u32) -> u32
    requires { 1 ≤ top }
    ensures { result ≡ over_alpha top a v }
{
    let t = top as usize;
    let a = a as usize;
    (a + (v as usize * t.saturating_sub(a) + t / 2) / t).min(t) as u32
}

// What a plane carries, under an input.
#[tactic(auto, unfolding(crate::specs::Overlay::over))]
fn over(top: u16, part: Part, m: u16, a: u16, premultiplied: bool, v: u32) -> u32
    requires { 1 ≤ top }
    ensures { result ≡ over top part m a premultiplied v }
{
    match part {
        Part::Luma | Part::Cb | Part::Cr => over_colour(top, m, a, premultiplied, v),
        Part::Alpha => over_alpha(top, a, v),
    }
}

// The first place that a sample covers along an axis.
#[tactic(auto, unfolding(crate::specs::Overlay::base))]
fn first_place(half: bool, c: usize) -> usize
    requires { c < 2 ^ 40 }
    ensures { result ≡ base half c }
{
    if half { 2 * c } else { c }
}

// A run of samples of a plane of the canvas, row after row: so many from the start-th on, in rows of so many columns, of places that
// are halved or not.
#[derive(Clone, Copy)]
pub struct Stripe {
    pub columns: usize,
    pub half_across: bool,
    pub half_down: bool,
    pub start: usize,
    pub count: usize,
}

// An input's samples and alpha: its format, the two planes' strides, and how it is laid.
#[derive(Clone, Copy)]
pub(crate) struct Source {
    format: PixelFormat,
    stride: usize,
    alpha_stride: usize,
    part: Part,
    premultiplied: bool,
    top: u16,
}

fn source_alpha(alpha: &[u8], s: Source, x: usize, y: usize) -> u16
    requires { has_alpha s.format ≡ true → y * s.alpha_stride + x * bytes_of s.format + bytes_of s.format ≤ length alpha.now }
    ensures { result ≡ alpha_in alpha.now s x y }
{
    let f = s.format;
    if f.has(Part::Alpha) {
        planes::sample(alpha, f.bytes_per_sample(), s.alpha_stride, x, y)
    } else {
        s.top
    }
}

// Whether a picture has the plane, and does not halve it.
fn stands(format: PixelFormat, part: Part) -> bool
    ensures { result ≡ true → Stands format part }
{
    !format.half_width(part) && !format.half_height(part) && format.has(part)
}

#[tactic(auto, unfolding(crate::specs::inner::Row::is_colour))]
fn is_colour(part: Part) -> bool
    ensures { result ≡ is_colour part }
{
    match part {
        Part::Luma | Part::Cb | Part::Cr => true,
        Part::Alpha => false,
    }
}

// Lays n samples of an input's row over those from k on, from the input's place x on, where they stand sample for sample and their top
// is the canvas's.
fn over_plain<const BYTES: usize>(
    acc: &mut [u32],
    k: usize,
    n: usize,
    plane: &[u8],
    alpha: &[u8],
    s: Source,
    x: usize,
    y: usize,
)
    requires { OverRowFits acc.old plane.now alpha.now s k n x 1 y × Stands s.format s.part × DepthTop s.format.depth s.top × (8 ≤ s.format.depth) × (BYTES ≡ bytes_at s.format.depth) }
    ensures { RowLaid acc.old acc.new k n (λ i v. row_over plane.now alpha.now s (x + i) y v) }
{
    let depth = s.format.depth;
    if !s.format.has(Part::Alpha) {
        opaque_row::<BYTES>(acc, k, n, plane, s.stride, x, y, s.top);
    } else if is_colour(s.part) {
        colour_row::<BYTES>(
            acc,
            k,
            n,
            plane,
            s.stride,
            alpha,
            s.alpha_stride,
            s.premultiplied,
            x,
            y,
            depth,
            s.top,
        );
    } else {
        opacity_row::<BYTES>(acc, k, n, alpha, s.alpha_stride, x, y, depth, s.top);
    }
}

// Lays n samples of an input's row over those from k on, from the input's place x on, by so many places a sample.
fn over_row(
    acc: &mut [u32],
    k: usize,
    n: usize,
    plane: &[u8],
    alpha: &[u8],
    s: Source,
    x: usize,
    step: usize,
    y: usize,
)
    requires { OverRowFits acc.old plane.now alpha.now s k n x step y }
    ensures { (j : ℕ) → get_or acc.new j 0
        ≡ pick (leb k j && ltb j (k + n)) (row_over plane.now alpha.now s (x + (j - k) * step) y (get_or acc.old j 0)) (get_or acc.old j 0) }
{
    let format = s.format;
    let depth = format.depth;
    if step == 1
        && PixelFormat::is_depth(depth)
        && format.top() == s.top
        && stands(format, s.part)
    {
        if depth == 8 {
            over_plain::<1>(acc, k, n, plane, alpha, s, x, y);
        } else {
            over_plain::<2>(acc, k, n, plane, alpha, s, x, y);
        }
    } else {
        over_row_each(acc, k, n, plane, alpha, s, x, step, y);
    }
}

// The same, sample by sample.
fn over_row_each(
    acc: &mut [u32],
    k: usize,
    n: usize,
    plane: &[u8],
    alpha: &[u8],
    s: Source,
    x: usize,
    step: usize,
    y: usize,
)
    requires { OverRowFits acc.old plane.now alpha.now s k n x step y }
    ensures { (j : ℕ) → get_or acc.new j 0
        ≡ pick (leb k j && ltb j (k + n)) (row_over plane.now alpha.now s (x + (j - k) * step) y (get_or acc.old j 0)) (get_or acc.old j 0) }
{
    for i in 0..n {
        let u = x + i * step;
        let m = planes::promoted(plane, s.format, s.stride, s.part, u, y);
        let a = source_alpha(alpha, s, u, y);
        let at = k + i;
        acc[at] = over(s.top, s.part, m, a, s.premultiplied, acc[at]);
    }
}

// The spot of an input at a place.
#[tactic(auto, unfolding(crate::specs::Overlay::spot_at))]
fn spot(o: Offset, x: usize) -> usize
    requires { x < 2 ^ 41 }
    ensures { result ≡ spot_at o x }
{
    (x + o.behind as usize).saturating_sub(o.ahead as usize)
}

// Lays a row of an input over what a stripe has of the plane's row r.
fn over_line(
    acc: &mut [u32],
    tray: &[u8],
    fr: Frame,
    place: Placement,
    premultiplied: bool,
    part: Part,
    top: u16,
    run: Stripe,
    r: usize,
)
    requires { InSlice tray.now fr × (1 ≤ top) × StripeFits run × (run.count ≤ length acc.old) × (r * run.columns < run.start + run.count)
        × (covers fr.form.height place.vertical (base run.half_down r) ≡ true) × Held top acc.old run.count }
    ensures { (j : ℕ) → j < run.count → get_or acc.new j 0
        ≡ pick (eqb ((run.start + j) / run.columns) r) (over_at top part (across_at run j) (down_at run j) (layer_with tray.now fr place premultiplied) (get_or acc.old j 0)) (get_or acc.old j 0) }
{
    let form = fr.form;
    let format = form.format;
    let across = reach(run.half_across, place.horizontal, form.width);
    let columns = run.columns;
    let start = run.start;
    let row = r * columns;
    let a = (row + across.from).max(start);
    let e = (row + across.to.min(columns)).min(start + run.count);
    if a < e {
        let q = fr.plane(part);
        let qa = fr.plane(Part::Alpha);
        let plane = planes::plane_data(tray, q);
        let alpha = planes::plane_data(tray, qa);
        let s = Source {
            format,
            stride: q.stride,
            alpha_stride: qa.stride,
            part,
            premultiplied,
            top,
        };
        let x = spot(place.horizontal, first_place(run.half_across, a - row));
        let y = spot(place.vertical, first_place(run.half_down, r));
        let step = step_of(run.half_across);
        over_row(acc, a - start, e - a, plane, alpha, s, x, step, y);
    }
}

// Lays one input over a stripe.
pub fn over_input(
    acc: &mut [u32],
    tray: &[u8],
    fr: Frame,
    place: Placement,
    premultiplied: bool,
    part: Part,
    top: u16,
    run: Stripe,
)
    requires { InSlice tray.now fr × (1 ≤ top) × StripeFits run × (run.count ≤ length acc.old) × Held top acc.old run.count }
    ensures { (j : ℕ) → j < run.count → get_or acc.new j 0
        ≡ over_at top part (across_at run j) (down_at run j) (layer_with tray.now fr place premultiplied) (get_or acc.old j 0) }
{
    let down = reach(run.half_down, place.vertical, fr.form.height);
    let columns = run.columns;
    let end = run.start + run.count;
    let first = down.from.max(run.start / columns);
    let last = down.to.min((end + columns - 1) / columns);
    for r in first..last {
        over_line(acc, tray, fr, place, premultiplied, part, top, run, r);
    }
}

// Lays every input over a stripe, in list order.
pub fn over_inputs(
    acc: &mut [u32],
    body: &[u8],
    tray: &[u8],
    premultiplied: &[u8],
    d: OverlayDescriptor,
    first: usize,
    part: Part,
    top: u16,
    run: Stripe,
)
    requires { OverlaySound body.now d × (length premultiplied.now ≡ d.count) × (1 ≤ top) × StripeFits run × (run.count ≤ length acc.old) × Held top acc.old run.count }
    ensures { (j : ℕ) → j < run.count → get_or acc.new j 0
        ≡ over_all top part (across_at run j) (down_at run j) (layers_of body.now tray.now premultiplied.now d 0 (frames_from d.count tray.now first)) (get_or acc.old j 0) }
{
    let mut at = first;
    for i in 0..d.count {
        match records::read_record(tray, at) {
            Err(_) => return,
            Ok(fr) => {
                let place = d.offset(body, i);
                let multiplied = premultiplied[i as usize] != 0;
                over_input(acc, tray, fr, place, multiplied, part, top, run);
                at = fr.end;
            }
        }
    }
}
