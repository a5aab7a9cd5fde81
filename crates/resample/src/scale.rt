// Another size, each sample the mean over its footprint.
ghost use Rattle.std.specs.Prelude.{◌≡◌, length};
ghost use Rattle.laws.specs.Out.{answer_of, fitted, written};
ghost use Rattle.sampling.specs.inner.Redraw.{ScaleFits};
ghost use Rattle.resample.specs.Run.{area_bytes, iscl_run};

use image::Size;
use laws::Refusal;
use records::Picture;
use sampling::Rule;
use sizes::Iscl;

// A record's picture at a size that iscl allows, each sample the mean over its footprint; an unchanged size hands the record back.
// Refusal: 17.
pub fn resize_area(picture: Picture<'_>, z: Size, out: &mut [u8]) -> Result<usize, Refusal>
    requires { ScaleFits picture.frame.form z }
    ensures { (result ≡ answer_of (fitted (length out.old) (area_bytes picture.entry.«record».now picture.entry.frame z.width z.height)))
        × (out.new ≡ written (fitted (length out.old) (area_bytes picture.entry.«record».now picture.entry.frame z.width z.height)) out.old) }
{
    let m = picture.frame.form;
    if m.has_size(z.width, z.height) {
        return planes::hand_back(picture.record, out);
    }
    crate::draw::draw(picture, m.sized(z.width, z.height), Rule::Area, out)
}

// A record's picture scaled by an iscl property. Refusals: the record's, 7, 10, 4, 17.
#[tactic(auto, unfolding(crate::specs::Run::iscl_run, laws::specs::Out::and_then, laws::specs::Out::answer_of, laws::specs::Out::written))]
pub fn apply_iscl(record: &[u8], iscl: Iscl, out: &mut [u8]) -> Result<usize, Refusal>
    ensures { (result ≡ answer_of (iscl_run «record».now iscl (length out.old)))
        × (out.new ≡ written (iscl_run «record».now iscl (length out.old)) out.old) }
{
    let frame = records::parse_record(record)?;
    let picture = Picture { record, frame };
    let m = frame.form;
    let z = iscl.output_size(m.width, m.height)?;
    resize_area(picture, z, out)
}
