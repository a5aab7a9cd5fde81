// An alpha plane for a picture, from another record's luma. The picture's colour planes stay as they stand.
ghost use Rattle.std.specs.Prelude.{◌≡◌, ◌+◌, ◌≤◌, ◌<◌, ◌^◌, length};
ghost use Rattle.laws.specs.Out.{answer_of, written};
ghost use Rattle.laws.specs.Puts.{puts};
ghost use Rattle.image.specs.Sound.{FormSound};
ghost use Rattle.attach.specs.Attach.{luma_form, kept_plane, kept_part, alpha_kept, alpha_bytes, attach_bytes, attach_run};
ghost use Rattle.attach.specs.inner.Kept.{KeptFits, Short};

use image::{Form, Part, PixelFormat};
use laws::Refusal;
use records::{Picture, Plane};
use sampling::{Depths, Rule};

// The form of a luma plane alone for a picture of a form.
#[tactic(auto, unfolding(crate::specs::Attach::luma_form))]
fn alpha_form(m: Form) -> Form
    ensures { result ≡ luma_form m }
{
    let format = PixelFormat {
        chroma: PixelFormat::MONO,
        alpha: 0,
        ..m.format
    };
    Form { format, ..m }
}

// Whether a luma plane serves as it stands.
#[tactic(auto, unfolding(crate::specs::Attach::alpha_kept))]
fn alpha_kept(m: Form, n: Form) -> bool
    ensures { result ≡ alpha_kept m n }
{
    n.has_size(m.width, m.height) && m.format.depth == n.format.depth
}

// Writes a plane as it stands, its two numbers with it, and returns the place past it.
fn keep_plane(out: &mut [u8], at: usize, s: &[u8], q: Plane) -> usize
    requires { KeptFits s.now q × (at + length (kept_plane s.now q) ≤ length out.old) }
    ensures { (result ≡ at + length (kept_plane s.now q)) × (out.new ≡ puts out.old at (kept_plane s.now q)) }
{
    let a = numbers::write_number(out, at, q.stride as u32);
    let b = numbers::write_number(out, a, q.len as u32);
    planes::copy_row(out, b, planes::plane_data(s, q))
}

// How many bytes a plane takes as it stands.
fn kept_size(s: &[u8], q: Plane) -> usize
    requires { KeptFits s.now q }
    ensures { (result ≡ length (kept_plane s.now q)) × (result < 2 ^ 33) }
{
    numbers::number_length(q.stride as u32) + numbers::number_length(q.len as u32) + q.len
}

// A picture whose planes can be written as they stand: their lengths fit a number.
#[derive(Clone, Copy)]
struct Kept<'a> {
    picture: Picture<'a>,
    ghost short: { Short picture.frame },
}

impl Kept<'_> {
    // Writes a colour plane as it stands, if the picture has it, and returns the place past it.
    fn keep_part(self, out: &mut [u8], at: usize, part: Part) -> usize
        requires { at + length (kept_part self.picture.«record».now self.picture.frame part) ≤ length out.old }
        ensures { (result ≡ at + length (kept_part self.entry.picture.«record».now self.entry.picture.frame part)) × (out.new ≡ puts out.old at (kept_part self.entry.picture.«record».now self.entry.picture.frame part)) }
    {
        if self.picture.frame.form.format.has(part) {
            keep_plane(out, at, self.picture.record, self.picture.frame.plane(part))
        } else {
            at
        }
    }

    fn part_size(self, part: Part) -> usize
        ensures { (result ≡ length (kept_part self.entry.picture.«record».now self.entry.picture.frame part)) × (result < 2 ^ 33) }
    {
        if self.picture.frame.form.format.has(part) {
            kept_size(self.picture.record, self.picture.frame.plane(part))
        } else {
            0
        }
    }

    // Writes its luma as the alpha plane of a picture of a form.
    fn write_alpha(self, out: &mut [u8], at: usize, m: Form) -> usize
        requires { FormSound m × (at + length (alpha_bytes m self.picture.«record».now self.picture.frame) ≤ length out.old) }
        ensures { (result ≡ at + length (alpha_bytes m self.entry.picture.«record».now self.entry.picture.frame)) × (out.new ≡ puts out.old at (alpha_bytes m self.entry.picture.«record».now self.entry.picture.frame)) }
    {
        let form = self.picture.frame.form;
        if alpha_kept(m, form) {
            return keep_plane(out, at, self.picture.record, self.picture.frame.luma);
        }
        let rule = Rule::Near(Depths {
            old: form.format.depth,
            new: m.format.depth,
        });
        resample::write_plane(out, at, self.picture, alpha_form(m), rule, Part::Luma)
    }

    fn alpha_size(self, m: Form) -> usize
        requires { FormSound m }
        ensures { (result ≡ length (alpha_bytes m self.entry.picture.«record».now self.entry.picture.frame)) × (result < 2 ^ 33) }
    {
        if alpha_kept(m, self.picture.frame.form) {
            kept_size(self.picture.record, self.picture.frame.luma)
        } else {
            planes::plane_size(alpha_form(m), Part::Luma)
        }
    }

    // How many bytes it takes with another's luma as its alpha.
    fn attached_size(self, alpha: Kept<'_>) -> usize
        ensures { result ≡ length (attach_bytes self.entry.picture.«record».now self.entry.picture.frame alpha.entry.picture.«record».now alpha.entry.picture.frame) }
    {
        let m = self.picture.frame.form;
        let head = planes::head_size(m.with_alpha(1));
        let luma = self.part_size(Part::Luma);
        let cb = self.part_size(Part::Cb);
        let cr = self.part_size(Part::Cr);
        head + luma + cb + cr + alpha.alpha_size(m)
    }

    fn write_attached(self, alpha: Kept<'_>, out: &mut [u8]) -> usize
        requires { length (attach_bytes self.picture.«record».now self.picture.frame alpha.picture.«record».now alpha.picture.frame) ≤ length out.old }
        ensures { (result ≡ length (attach_bytes self.entry.picture.«record».now self.entry.picture.frame alpha.entry.picture.«record».now alpha.entry.picture.frame))
            × (out.new ≡ puts out.old 0 (attach_bytes self.entry.picture.«record».now self.entry.picture.frame alpha.entry.picture.«record».now alpha.entry.picture.frame)) }
    {
        let m = self.picture.frame.form;
        let a = planes::write_head(out, 0, m.with_alpha(1));
        let b = self.keep_part(out, a, Part::Luma);
        let c = self.keep_part(out, b, Part::Cb);
        let d = self.keep_part(out, c, Part::Cr);
        alpha.write_alpha(out, d, m)
    }
}

// The master's picture with another record's luma as its alpha. Refusals: the master's, the alpha record's, 17.
#[tactic(auto, unfolding(crate::specs::Attach::attach_run, laws::specs::Out::and_then, laws::specs::Out::answer_of, laws::specs::Out::written))]
pub fn attach_alpha(master: &[u8], alpha: &[u8], out: &mut [u8]) -> Result<usize, Refusal>
    ensures { (result ≡ answer_of (attach_run master.now alpha.now (length out.old)))
        × (out.new ≡ written (attach_run master.now alpha.now (length out.old)) out.old) }
{
    let f = records::parse_record(master)?;
    let g = records::parse_record(alpha)?;
    let picture = Picture {
        record: master,
        frame: f,
    };
    let other = Picture {
        record: alpha,
        frame: g,
    };
    let colours = Kept { picture };
    let luma = Kept { picture: other };
    if out.len() < colours.attached_size(luma) {
        return Err(Refusal::ROOM);
    }
    Ok(colours.write_attached(luma, out))
}
