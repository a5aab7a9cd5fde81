// Frame records and trays of them, read with every refusal in document 01's order.
ghost use Rattle.std.specs.Prelude.{◌≡◌, ◌≤◌, ◌<◌, ◌^◌, length};
ghost use Rattle.laws.specs.Pick.{pick};
ghost use Rattle.records.specs.Record.{head_at, plane_at, planes_at, record_at, record_of, plane_of};
ghost use Rattle.records.specs.Tray.{frames_at, tray_of, tray_count};
ghost use Rattle.image.specs.Sound.{FormSound};

use image::{Form, Part, PixelFormat};
use laws::{Item, Refusal};

// Where a plane's bytes stand in the slice that holds its record. A part that the picture has not has no bytes.
#[derive(Clone, Copy)]
pub struct Plane {
    pub start: usize,
    pub len: usize,
    pub stride: usize,
}

// A record that was taken: its form, its planes, and the place past it.
#[derive(Clone, Copy)]
pub struct Frame {
    pub form: Form,
    pub luma: Plane,
    pub cb: Plane,
    pub cr: Plane,
    pub alpha: Plane,
    pub end: usize,
}

// The header at a place, five numbers that are read before any is judged: its form, and the place past it.
#[tactic(auto, unfolding(crate::specs::Record::head_at, crate::specs::Record::head_of, numbers::specs::Number::on_number, laws::specs::Out::and_then))]
fn read_head(s: &[u8], at: usize) -> Result<(Form, usize), Refusal>
    ensures { result ≡ head_at s.now at }
{
    let (width, a) = numbers::read_number(s, at)?;
    let (height, b) = numbers::read_number(s, a)?;
    let (chroma, c) = numbers::read_number(s, b)?;
    let (depth, d) = numbers::read_number(s, c)?;
    let (alpha, next) = numbers::read_number(s, d)?;
    let form = Form::judge(width, height, chroma, depth, alpha)?;
    Ok((form, next))
}

// The plane of `rows` rows of `row` bytes at a place.
#[tactic(auto, unfolding(crate::specs::Record::plane_at, numbers::specs::Number::on_number, laws::specs::Out::refuse))]
fn read_plane(s: &[u8], at: usize, rows: usize, row: usize) -> Result<Plane, Refusal>
    requires { (0 < rows) × (rows < 2 ^ 32) × (row < 2 ^ 33) }
    ensures { result ≡ plane_at s.now at rows row }
{
    let (stride, a) = numbers::read_number(s, at)?;
    let (len, b) = numbers::read_number(s, a)?;
    let stride = stride as usize;
    let len = len as usize;
    if stride < row {
        return Err(Refusal::MALFORMED);
    }
    if len < stride * (rows - 1) + row {
        return Err(Refusal::MALFORMED);
    }
    if s.len() - b < len {
        return Err(Refusal::MALFORMED);
    }
    Ok(Plane {
        start: b,
        len,
        stride,
    })
}

// The plane at a place, if the picture has it.
#[tactic(auto, unfolding(laws::specs::Pick::pick))]
fn read_part(s: &[u8], at: usize, has: bool, rows: usize, row: usize) -> Result<Plane, Refusal>
    requires { (0 < rows) × (rows < 2 ^ 32) × (row < 2 ^ 33) }
    ensures { result ≡ pick has (plane_at s.now at rows row) (Ok (record { start = at; len = 0; stride = 0 })) }
{
    if has {
        read_plane(s, at, rows, row)
    } else {
        Ok(Plane {
            start: at,
            len: 0,
            stride: 0,
        })
    }
}

// The planes of a form at a place, in turn. Those of a kind have as many rows, of as many bytes.
fn read_planes(s: &[u8], at: usize, form: Form) -> Result<Frame, Refusal>
    requires { FormSound form × (at ≤ length s.now) }
    ensures { result ≡ planes_at s.now at form }
{
    let f = form.format;
    let rows = form.height as usize;
    let row = form.row_size(Part::Luma) as usize;
    let colour = f.has(Part::Cb);
    let chroma_rows = f.rows(form.height, Part::Cb);
    let chroma_row = form.row_size(Part::Cb) as usize;
    let luma = read_part(s, at, true, rows, row)?;
    let cb = read_part(s, luma.start + luma.len, colour, chroma_rows, chroma_row)?;
    let cr = read_part(s, cb.start + cb.len, colour, chroma_rows, chroma_row)?;
    let alpha = read_part(s, cr.start + cr.len, f.has(Part::Alpha), rows, row)?;
    Ok(Frame {
        form,
        luma,
        cb,
        cr,
        alpha,
        end: alpha.start + alpha.len,
    })
}

// The record that stands at a place.
#[tactic(auto, unfolding(crate::specs::Record::record_at, laws::specs::Out::and_then))]
pub fn read_record(s: &[u8], at: usize) -> Result<Frame, Refusal>
    ensures { result ≡ record_at s.now at }
{
    let (form, next) = read_head(s, at)?;
    read_planes(s, next, form)
}

// A record and nothing after it.
#[tactic(auto, unfolding(crate::specs::Record::record_of, laws::specs::Out::and_then, laws::specs::Out::refuse))]
pub fn parse_record(s: &[u8]) -> Result<Frame, Refusal>
    ensures { result ≡ record_of s.now }
{
    let f = read_record(s, 0)?;
    if f.end < s.len() {
        return Err(Refusal::MALFORMED);
    }
    Ok(f)
}

// So many records in turn from a place on, and nothing after. A record's own refusal has its index.
pub fn check_records(s: &[u8], at: usize, count: u32) -> Result<u32, Refusal>
    ensures { result ≡ tray_count (frames_at count s.now at) }
{
    let mut next = at;
    for i in 0..count {
        match read_record(s, next) {
            Err(e) => return Err(e.about(Item::Record(i as u64))),
            Ok(f) => next = f.end,
        }
    }
    if next < s.len() {
        return Err(Refusal::MALFORMED);
    }
    Ok(count)
}

// A tray: a count, then that many records, nothing after.
#[tactic(auto, unfolding(crate::specs::Tray::tray_of, crate::specs::Tray::tray_count, numbers::specs::Number::on_number, laws::specs::Out::and_then))]
pub fn check_tray(s: &[u8]) -> Result<u32, Refusal>
    ensures { result ≡ tray_count (tray_of s.now) }
{
    let (count, first) = numbers::read_number(s, 0)?;
    check_records(s, first, count)
}

impl Frame {
    #[tactic(auto, unfolding(crate::specs::Record::plane_of))]
    pub fn plane(self, part: Part) -> Plane
        ensures { result ≡ plane_of self part }
    {
        match part {
            Part::Luma => self.luma,
            Part::Cb => self.cb,
            Part::Cr => self.cr,
            Part::Alpha => self.alpha,
        }
    }
}
