// One writer for every picture that is another's planes walked along their axes.
ghost use Rattle.std.specs.Prelude.{◌≡◌, true, ◌+◌, ◌*◌, ◌<◌, ◌≤◌, ◌^◌, length};
ghost use Rattle.laws.specs.Pick.{pick};
ghost use Rattle.laws.specs.Puts.{puts};
ghost use Rattle.image.specs.Format.{cover};
ghost use Rattle.planes.specs.Bytes.{decode, plane_bytes, encode};
ghost use Rattle.moves.specs.inner.Rows.{Mirrored, course_of};
ghost use Rattle.moves.specs.inner.Move.{along_from, moved, walk_bytes, walk_of, plane_axis, line_of, row_line, WalkRowFits, WalkInside, MoveFits};

use image::{Form, Part, PixelFormat};
use planes::Line;
use records::Picture;
use turns::Course;

// Along one axis: from a place on, forward or back.
#[derive(Clone, Copy)]
pub struct Axis {
    pub from: usize,
    pub back: bool,
}

// A picture drawn from another: its form, whether the other is promoted first, and how its places run along the other's axes.
// Where they are swapped, its columns run down and its rows across.
#[derive(Clone, Copy)]
pub struct Move {
    pub form: Form,
    pub promoted: bool,
    pub swapped: bool,
    pub across: Axis,
    pub down: Axis,
}

// The same of one plane, by its own samples; a halved axis of a promoted plane is walked place by place.
#[derive(Clone, Copy)]
pub struct Walk {
    pub swapped: bool,
    pub across: Axis,
    pub down: Axis,
    pub half_across: bool,
    pub half_down: bool,
}

// The sample k steps along an axis.
#[tactic(auto, unfolding(crate::specs::inner::Move::along_from, laws::specs::Pick::pick))]
fn reach(a: Axis, half: bool, k: usize) -> usize
    requires { (a.from < 2 ^ 31) × (k < 2 ^ 31) × (a.back ≡ true → k ≤ a.from) }
    ensures { result ≡ cover half (along_from a.back a.from k) }
{
    planes::covering(half, if a.back { a.from - k } else { a.from + k })
}

// A line along an axis.
#[tactic(auto, unfolding(crate::specs::inner::Move::line_of, laws::specs::Pick::pick))]
fn axis_line(a: Axis, half: bool, origin: usize, step: usize) -> Line
    ensures { result ≡ line_of a half origin step }
{
    Line {
        origin,
        step,
        from: a.from,
        forth: step_where(!a.back, 1),
        back: step_where(a.back, 1),
        half: planes::shift(half),
    }
}

// The line that a row of the new plane takes its samples from.
#[tactic(auto, unfolding(crate::specs::inner::Move::row_line, laws::specs::Pick::pick))]
fn row_line(w: Walk, bytes: usize, stride: usize, y: usize) -> Line
    requires { WalkRowFits w bytes stride y }
    ensures { result ≡ row_line w bytes stride y }
{
    if w.swapped {
        let origin = reach(w.across, w.half_across, y) * bytes;
        axis_line(w.down, w.half_down, origin, stride)
    } else {
        let origin = reach(w.down, w.half_down, y) * stride;
        axis_line(w.across, w.half_across, origin, bytes)
    }
}

// Writes the rows of a plane that is walked, sample by sample or as copies of rows, and returns the place past them.
fn walk_rows(
    out: &mut [u8],
    at: usize,
    plane: &[u8],
    bytes: usize,
    stride: usize,
    w: Walk,
    columns: usize,
    rows: usize,
) -> usize
    requires { WalkInside plane.now bytes stride w columns rows × (at + rows * (columns * bytes) ≤ length out.old) }
    ensures { (result ≡ at + rows * (columns * bytes)) × (out.new ≡ puts out.old at (walk_bytes plane.now bytes stride w columns rows)) }
{
    let mut i = at;
    for y in 0..rows {
        let l = row_line(w, bytes, stride, y);
        i = planes::write_line(out, i, plane, bytes, l, columns);
    }
    i
}

// The same where each row is one of the plane's, from its last sample back. It is read from its end back where the rows run up, and from
// its start on where they run down.
fn mirror_rows(
    out: &mut [u8],
    at: usize,
    plane: &[u8],
    bytes: usize,
    stride: usize,
    w: Walk,
    columns: usize,
    rows: usize,
) -> usize
    requires { WalkInside plane.now bytes stride w columns rows × (at + rows * (columns * bytes) ≤ length out.old) × Mirrored w }
    ensures { (result ≡ at + rows * (columns * bytes)) × (out.new ≡ puts out.old at (walk_bytes plane.now bytes stride w columns rows)) }
{
    let last = w.across.from * bytes;
    let mut i = at;
    for y in 0..rows {
        let j = reach(w.down, w.half_down, y) * stride + last;
        i = turns::reverse_row(out, i, plane, bytes, j, columns, w.down.back);
    }
    i
}

// A step, or none.
#[tactic(auto, unfolding(laws::specs::Pick::pick))]
fn step_where(taken: bool, step: usize) -> usize
    ensures { result ≡ pick taken step 0 }
{
    if taken { step } else { 0 }
}

// Where the samples of a walk stand whose axes are swapped.
#[tactic(auto, unfolding(crate::specs::inner::Rows::course_of))]
fn turn_course(w: Walk, bytes: usize, stride: usize) -> Course
    requires { (w.across.from < 2 ^ 31) × (w.down.from < 2 ^ 31) × (bytes ≤ 2) × (stride < 2 ^ 32) }
    ensures { result ≡ course_of w bytes stride }
{
    Course {
        from: w.across.from * bytes + w.down.from * stride,
        right: step_where(!w.across.back, bytes),
        left: step_where(w.across.back, bytes),
        down: step_where(!w.down.back, stride),
        up: step_where(w.down.back, stride),
    }
}

// Writes the rows of a plane that is walked, in the way that suits the walk, and returns the place past them.
fn write_rows(
    out: &mut [u8],
    at: usize,
    plane: &[u8],
    bytes: usize,
    stride: usize,
    w: Walk,
    columns: usize,
    rows: usize,
) -> usize
    requires { WalkInside plane.now bytes stride w columns rows × (at + rows * (columns * bytes) ≤ length out.old) }
    ensures { (result ≡ at + rows * (columns * bytes)) × (out.new ≡ puts out.old at (walk_bytes plane.now bytes stride w columns rows)) }
{
    if w.half_across || w.swapped && w.half_down {
        walk_rows(out, at, plane, bytes, stride, w, columns, rows)
    } else if w.swapped {
        let c = turn_course(w, bytes, stride);
        turns::turn_rows(out, at, plane, bytes, c, columns, rows)
    } else if w.across.back {
        mirror_rows(out, at, plane, bytes, stride, w, columns, rows)
    } else {
        walk_rows(out, at, plane, bytes, stride, w, columns, rows)
    }
}

#[tactic(auto, unfolding(crate::specs::inner::Move::plane_axis, laws::specs::Pick::pick))]
fn plane_axis(promoted: bool, half: bool, a: Axis) -> Axis
    ensures { result ≡ plane_axis promoted half a }
{
    if promoted {
        a
    } else {
        Axis {
            from: planes::covering(half, a.from),
            ..a
        }
    }
}

// How a plane is walked.
#[tactic(auto, unfolding(crate::specs::inner::Move::walk_of))]
fn plane_walk(f: PixelFormat, v: Move, part: Part) -> Walk
    ensures { result ≡ walk_of f v part }
{
    let half_x = f.half_width(part);
    let half_y = f.half_height(part);
    Walk {
        swapped: v.swapped,
        across: plane_axis(v.promoted, half_x, v.across),
        down: plane_axis(v.promoted, half_y, v.down),
        half_across: v.promoted && half_x,
        half_down: v.promoted && half_y,
    }
}

// Writes a plane of the new picture, and returns the place past it.
fn write_plane(out: &mut [u8], at: usize, picture: Picture<'_>, v: Move, part: Part) -> usize
    requires { MoveFits picture.frame.form v × (at + length (plane_bytes (moved v (decode picture.«record».now picture.frame)) part) ≤ length out.old) }
    ensures { (result ≡ at + length (plane_bytes (moved v (decode picture.entry.«record».now picture.entry.frame)) part))
        × (out.new ≡ puts out.old at (plane_bytes (moved v (decode picture.entry.«record».now picture.entry.frame)) part)) }
{
    let form = v.form;
    let g = form.format;
    if !g.has(part) {
        return at;
    }
    let first = planes::write_plane_head(out, at, form, part);
    let f = picture.frame.form.format;
    let q = picture.frame.plane(part);
    let w = plane_walk(f, v, part);
    let columns = g.columns(form.width, part);
    let rows = g.rows(form.height, part);
    let plane = planes::plane_data(picture.record, q);
    let bytes = f.bytes_per_sample();
    write_rows(out, first, plane, bytes, q.stride, w, columns, rows)
}

// Writes the new picture's record at the start.
pub fn write_moved(out: &mut [u8], picture: Picture<'_>, v: Move) -> usize
    requires { MoveFits picture.frame.form v × (length (encode (moved v (decode picture.«record».now picture.frame))) ≤ length out.old) }
    ensures { (result ≡ length (encode (moved v (decode picture.entry.«record».now picture.entry.frame))))
        × (out.new ≡ puts out.old 0 (encode (moved v (decode picture.entry.«record».now picture.entry.frame)))) }
{
    let a = planes::write_head(out, 0, v.form);
    let b = write_plane(out, a, picture, v, Part::Luma);
    let c = write_plane(out, b, picture, v, Part::Cb);
    let d = write_plane(out, c, picture, v, Part::Cr);
    write_plane(out, d, picture, v, Part::Alpha)
}
