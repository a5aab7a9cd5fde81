// One writer for every picture whose samples are worked out from another's, planes at their own sizes.
ghost use Rattle.std.specs.Prelude.{◌≡◌, ◌+◌, ◌<◌, ◌≤◌, length};
ghost use Rattle.laws.specs.Out.{answer_of, written, fitted};
ghost use Rattle.laws.specs.Puts.{puts};
ghost use Rattle.planes.specs.Bytes.{decode, plane_bytes, encode};
ghost use Rattle.records.specs.Record.{data_of};
ghost use Rattle.sampling.specs.inner.Redraw.{raster_of, redrawn, RasterFits, RedrawFits};

use image::{Form, Part};
use laws::Refusal;
use records::{Picture, Plane};
use sampling::{Axis, Raster, Rule, Source};

// A plane of a picture, and what is made of it for a picture of another form.
#[tactic(auto, unfolding(sampling::specs::inner::Redraw::raster_of, sampling::specs::inner::Redraw::across_of, sampling::specs::inner::Redraw::down_of, image::specs::Format::columns_of, image::specs::Format::rows_of))]
fn plane_raster(m: Form, form: Form, stride: usize, part: Part, rule: Rule) -> Raster
    ensures { result ≡ raster_of m form stride part rule }
{
    let f = m.format;
    let g = form.format;
    Raster {
        bytes: f.bytes_per_sample(),
        stride,
        to_bytes: g.bytes_per_sample(),
        across: Axis {
            from: f.columns(m.width, part),
            to: g.columns(form.width, part),
        },
        down: Axis {
            from: f.rows(m.height, part),
            to: g.rows(form.height, part),
        },
        rule,
    }
}

// A plane of a record, with what is made of it.
fn plane_source(s: &[u8], q: Plane, raster: Raster) -> Source<'_>
    requires { (q.start + q.len ≤ length s.now) × RasterFits (data_of s.now q) raster }
    ensures { (result.plane.now ≡ data_of s.now q) × (result.raster ≡ raster) }
{
    Source {
        plane: planes::plane_data(s, q),
        raster,
    }
}

// Writes a plane of the new picture, and returns the place past it.
pub fn write_plane(
    out: &mut [u8],
    at: usize,
    picture: Picture<'_>,
    form: Form,
    rule: Rule,
    part: Part,
) -> usize
    requires { RedrawFits picture.frame.form form rule × (at + length (plane_bytes (redrawn form rule (decode picture.«record».now picture.frame)) part) ≤ length out.old) }
    ensures { (result ≡ at + length (plane_bytes (redrawn form rule (decode picture.entry.«record».now picture.entry.frame)) part))
        × (out.new ≡ puts out.old at (plane_bytes (redrawn form rule (decode picture.entry.«record».now picture.entry.frame)) part)) }
{
    if !form.format.has(part) {
        return at;
    }
    let first = planes::write_plane_head(out, at, form, part);
    let q = picture.frame.plane(part);
    let r = plane_raster(picture.frame.form, form, q.stride, part, rule);
    rasters::write_rows(out, first, plane_source(picture.record, q, r))
}

// Writes the new picture's record at the start.
fn write_record(out: &mut [u8], picture: Picture<'_>, form: Form, rule: Rule) -> usize
    requires { RedrawFits picture.frame.form form rule × (length (encode (redrawn form rule (decode picture.«record».now picture.frame))) ≤ length out.old) }
    ensures { (result ≡ length (encode (redrawn form rule (decode picture.entry.«record».now picture.entry.frame))))
        × (out.new ≡ puts out.old 0 (encode (redrawn form rule (decode picture.entry.«record».now picture.entry.frame)))) }
{
    let a = planes::write_head(out, 0, form);
    let b = write_plane(out, a, picture, form, rule, Part::Luma);
    let c = write_plane(out, b, picture, form, rule, Part::Cb);
    let d = write_plane(out, c, picture, form, rule, Part::Cr);
    write_plane(out, d, picture, form, rule, Part::Alpha)
}

// Draws a picture of another form by a rule, where there is room for its record.
pub fn draw(picture: Picture<'_>, form: Form, rule: Rule, out: &mut [u8]) -> Result<usize, Refusal>
    requires { RedrawFits picture.frame.form form rule }
    ensures { (result ≡ answer_of (fitted (length out.old) (encode (redrawn form rule (decode picture.entry.«record».now picture.entry.frame)))))
        × (out.new ≡ written (fitted (length out.old) (encode (redrawn form rule (decode picture.entry.«record».now picture.entry.frame)))) out.old) }
{
    if out.len() < planes::record_size(form) {
        return Err(Refusal::ROOM);
    }
    Ok(write_record(out, picture, form, rule))
}
