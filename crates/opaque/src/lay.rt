// An input's rows stored in the rectangle that it covers, held to top.
ghost use Rattle.std.specs.Prelude.{◌≡◌, ◌&&◌, false, not, true, ◌<◌, ◌≤◌, ◌^◌, eqb, length};
ghost use Rattle.laws.specs.Any.{any};
ghost use Rattle.image.specs.Format.{has_part};
ghost use Rattle.image.specs.Sound.{FormSound};
ghost use Rattle.records.specs.inner.Frames.{frames_from};
ghost use Rattle.planes.specs.Bytes.{decode, size_of, tight_at};
ghost use Rattle.derived.specs.inner.Sound.{OverlaySound};
ghost use Rattle.opaque.specs.inner.Laid.{Lays, PlaceFits, absent_of, lay_frames, lay_input, lay_part, lay_rows, place_of, source_of, unfit};

use crate::axis::{Window, window_of};
use derived::{OverlayDescriptor, Placement};
use image::{Form, Part, PixelFormat};
use paste::Source;
use records::Frame;

// The rectangle that an input covers on a plane, in the canvas's record.
#[derive(Clone, Copy)]
pub(crate) struct Place {
    at: usize,
    stride: usize,
    across: Window,
    down: Window,
}

fn place_of(to: Frame, m: Form, o: Placement, part: Part) -> Place
    requires { (to ≡ tight_at to.form 0) × FormSound to.form × (has_part to.form.format part ≡ true) × (size_of to.form < 2 ^ 63) }
    ensures { result ≡ place_of to.form m o part }
{
    let canvas = to.form;
    let c = canvas.format;
    let across = window_of(
        c.half_width(part),
        o.horizontal,
        m.width,
        c.columns(canvas.width, part),
    );
    let down = window_of(
        c.half_height(part),
        o.vertical,
        m.height,
        c.rows(canvas.height, part),
    );
    let plane = to.plane(part);
    let stride = plane.stride;
    Place {
        at: plane.start + (down.at * stride + across.at * c.bytes_per_sample()),
        stride,
        across,
        down,
    }
}

// What an input that has not the plane shows there: no colour, or top.
#[tactic(auto, unfolding(crate::specs::inner::Laid::absent_of))]
fn absent(f: PixelFormat, part: Part) -> u16
    requires { (1 ≤ f.depth) × (f.depth ≤ 16) }
    ensures { result ≡ absent_of f part }
{
    match part {
        Part::Luma | Part::Cb | Part::Cr => f.middle(),
        Part::Alpha => f.top(),
    }
}

// Whether a sample of the depth can be above top.
fn may_exceed(depth: u32) -> bool
    ensures { result ≡ not (eqb depth 8) && not (eqb depth 16) }
{
    depth != 8 && depth != 16
}

// Where an input's samples are read. A halved axis is walked place by place where the canvas is not halved.
#[tactic(auto, unfolding(crate::specs::inner::Laid::source_of))]
fn source_of(fr: Frame, c: PixelFormat, part: Part, to: Place) -> Source
    ensures { result ≡ source_of fr c part to }
{
    let f = fr.form.format;
    let half_across = c.half_width(part);
    let half_down = c.half_height(part);
    Source {
        bytes: f.bytes_per_sample(),
        stride: fr.plane(part).stride,
        half_across: f.half_width(part) && !half_across,
        half_down: f.half_height(part) && !half_down,
        x: planes::covering(half_across, to.across.spot),
        y: planes::covering(half_down, to.down.spot),
    }
}

// A plane that the input has: its rows as they are, or held to top.
fn lay_rows(out: &mut [u8], canvas: Form, tray: &[u8], fr: Frame, part: Part, to: Place)
    requires { Lays tray.now fr canvas (length out.old) × (has_part fr.form.format part ≡ true) × PlaceFits canvas fr.form part to (length out.old) }
    ensures { out.new ≡ lay_rows canvas (decode tray.now fr) part to out.old }
{
    let c = canvas.format;
    let data = planes::plane_data(tray, fr.plane(part));
    let s = source_of(fr, c, part, to);
    let across = to.across;
    let down = to.down;
    if may_exceed(c.depth) {
        paste::store_capped(
            out,
            to.at,
            to.stride,
            across.count,
            down.count,
            data,
            s,
            c.top(),
        );
    } else {
        paste::store_rows(out, to.at, to.stride, across.count, down.count, data, s);
    }
}

// A plane of an input in the rectangle that it covers, if the canvas has the plane.
fn lay_part(out: &mut [u8], to: Frame, tray: &[u8], fr: Frame, o: Placement, part: Part)
    requires { (to ≡ tight_at to.form 0) × Lays tray.now fr to.form (length out.old) }
    ensures { out.new ≡ lay_part to.form (decode tray.now fr) o part out.old }
{
    let canvas = to.form;
    let c = canvas.format;
    if c.has(part) {
        let q = place_of(to, fr.form, o, part);
        if q.across.count == 0 || q.down.count == 0 {
            return;
        }
        if fr.form.format.has(part) {
            lay_rows(out, canvas, tray, fr, part, q);
        } else {
            paste::store_even(
                out,
                q.at,
                q.stride,
                q.across.count,
                q.down.count,
                c.bytes_per_sample(),
                absent(c, part),
            );
        }
    }
}

// An input on the canvas.
fn lay_input(out: &mut [u8], to: Frame, tray: &[u8], fr: Frame, o: Placement)
    requires { (to ≡ tight_at to.form 0) × Lays tray.now fr to.form (length out.old) }
    ensures { out.new ≡ lay_input to.form (decode tray.now fr) o out.old }
{
    lay_part(out, to, tray, fr, o, Part::Luma);
    lay_part(out, to, tray, fr, o, Part::Cb);
    lay_part(out, to, tray, fr, o, Part::Cr);
    lay_part(out, to, tray, fr, o, Part::Alpha);
}

// Every input, in list order.
pub fn lay_inputs(
    out: &mut [u8],
    body: &[u8],
    tray: &[u8],
    d: OverlayDescriptor,
    first: usize,
    canvas: Form,
)
    requires { OverlaySound body.now d × FormSound canvas × (size_of canvas ≤ length out.old) × (any (unfit canvas) (frames_from d.count tray.now first) ≡ false) }
    ensures { out.new ≡ lay_frames canvas body.now tray.now d 0 (frames_from d.count tray.now first) out.old }
{
    let to = planes::tight(canvas);
    let mut at = first;
    for i in 0..d.count {
        match records::read_record(tray, at) {
            Err(_) => return,
            Ok(fr) => {
                lay_input(out, to, tray, fr, d.offset(body, i));
                at = fr.end;
            }
        }
    }
}
