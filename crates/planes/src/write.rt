// Tight records: their headers, their planes' numbers, and how long they are.
ghost use Rattle.std.specs.Prelude.{◌≡◌, ◌+◌, ◌≤◌, ◌<◌, ◌^◌, length};
ghost use Rattle.laws.specs.Out.{answer_of, written, fitted};
ghost use Rattle.laws.specs.Puts.{puts};
ghost use Rattle.planes.specs.Bytes.{head_bytes, placed, plane_head, plane_size, size_of, tight_at};
ghost use Rattle.image.specs.Sound.{FormSound};

use image::{Form, Part};
use laws::Refusal;
use records::{Frame, Plane};

// Writes a record's five first numbers at `at`, and returns the place past them.
pub fn write_head(out: &mut [u8], at: usize, form: Form) -> usize
    requires { at + length (head_bytes form) ≤ length out.old }
    ensures { (result ≡ at + length (head_bytes form)) × (out.new ≡ puts out.old at (head_bytes form)) }
{
    let f = form.format;
    let a = numbers::write_number(out, at, form.width);
    let b = numbers::write_number(out, a, form.height);
    let c = numbers::write_number(out, b, f.chroma);
    let d = numbers::write_number(out, c, f.depth);
    numbers::write_number(out, d, f.alpha)
}

// Writes a plane's stride and length at `at`, and returns the place past them.
pub fn write_plane_head(out: &mut [u8], at: usize, form: Form, part: Part) -> usize
    requires { FormSound form × (at + length (plane_head form part) ≤ length out.old) }
    ensures { (result ≡ at + length (plane_head form part)) × (out.new ≡ puts out.old at (plane_head form part)) }
{
    let a = numbers::write_number(out, at, form.row_size(part));
    numbers::write_number(out, a, form.plane_len(part))
}

// How many bytes a plane of a tight record takes, its two numbers with them.
#[tactic(auto, unfolding(crate::specs::Bytes::plane_size, crate::specs::Bytes::plane_head, laws::specs::Pick::pick))]
pub fn plane_size(form: Form, part: Part) -> usize
    requires { FormSound form }
    ensures { (result ≡ plane_size form part) × (result < 2 ^ 33) }
{
    if form.format.has(part) {
        let row = form.row_size(part);
        let len = form.plane_len(part);
        numbers::number_length(row) + numbers::number_length(len) + len as usize
    } else {
        0
    }
}

// How many bytes a record's five first numbers take.
#[tactic(auto, unfolding(crate::specs::Bytes::head_bytes))]
pub fn head_size(form: Form) -> usize
    ensures { (result ≡ length (head_bytes form)) × (result ≤ 25) }
{
    let f = form.format;
    let a = numbers::number_length(form.width);
    let b = numbers::number_length(form.height);
    let c = numbers::number_length(f.chroma);
    let d = numbers::number_length(f.depth);
    let e = numbers::number_length(f.alpha);
    a + b + c + d + e
}

// How many bytes a tight record takes.
#[tactic(auto, unfolding(crate::specs::Bytes::size_of))]
pub fn record_size(form: Form) -> usize
    requires { FormSound form }
    ensures { result ≡ size_of form }
{
    let head = head_size(form);
    let luma = plane_size(form, Part::Luma);
    let cb = plane_size(form, Part::Cb);
    let cr = plane_size(form, Part::Cr);
    let alpha = plane_size(form, Part::Alpha);
    head + luma + cb + cr + alpha
}

// The plane of a part of a tight record whose numbers and bytes begin at `at`.
#[tactic(auto, unfolding(crate::specs::Bytes::placed, crate::specs::Bytes::plane_head, laws::specs::Pick::pick))]
fn placed(form: Form, part: Part, at: usize) -> Plane
    requires { FormSound form × (at ≤ 2 ^ 40) }
    ensures { (result ≡ placed form part at) × (result.start + result.len < at + 2 ^ 33) }
{
    if form.format.has(part) {
        let row = form.row_size(part);
        let len = form.plane_len(part);
        let head = numbers::number_length(row) + numbers::number_length(len);
        Plane {
            start: at + head,
            len: len as usize,
            stride: row as usize,
        }
    } else {
        Plane {
            start: at,
            len: 0,
            stride: 0,
        }
    }
}

// Where the tight record of a form has its planes.
#[tactic(auto, unfolding(records::specs::Record::past))]
pub fn tight(form: Form) -> Frame
    requires { FormSound form }
    ensures { result ≡ tight_at form 0 }
{
    let luma = placed(form, Part::Luma, head_size(form));
    let cb = placed(form, Part::Cb, luma.start + luma.len);
    let cr = placed(form, Part::Cr, cb.start + cb.len);
    let alpha = placed(form, Part::Alpha, cr.start + cr.len);
    let end = alpha.start + alpha.len;
    Frame {
        form,
        luma,
        cb,
        cr,
        alpha,
        end,
    }
}

// Hands a record back byte for byte where there is room for it.
pub fn hand_back(record: &[u8], out: &mut [u8]) -> Result<usize, Refusal>
    ensures { (result ≡ answer_of (fitted (length out.old) «record».now))
        × (out.new ≡ written (fitted (length out.old) «record».now) out.old) }
{
    if out.len() < record.len() {
        return Err(Refusal::ROOM);
    }
    Ok(crate::samples::copy_row(out, 0, record))
}
