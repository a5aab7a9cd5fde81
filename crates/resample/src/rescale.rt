// Another depth: each sample in proportion to the top.
ghost use Rattle.std.specs.Prelude.{◌≡◌, length};
ghost use Rattle.laws.specs.Out.{answer_of, written};
ghost use Rattle.resample.specs.Run.{depth_run};

use image::{Form, PixelFormat};
use laws::Refusal;
use records::Picture;
use sampling::{Depths, Rule};

// A record's picture at another depth. Refusals: the record's, 6, 17.
#[tactic(auto, unfolding(crate::specs::Run::depth_run, laws::specs::Out::and_then, laws::specs::Out::answer_of, laws::specs::Out::written))]
pub fn rescale_depth(record: &[u8], depth: u32, out: &mut [u8]) -> Result<usize, Refusal>
    ensures { (result ≡ answer_of (depth_run «record».now depth (length out.old)))
        × (out.new ≡ written (depth_run «record».now depth (length out.old)) out.old) }
{
    let frame = records::parse_record(record)?;
    let picture = Picture { record, frame };
    if !PixelFormat::is_depth(depth) {
        return Err(Refusal::DEPTH);
    }
    let m = frame.form;
    let old = m.format.depth;
    if depth == old {
        return planes::hand_back(record, out);
    }
    let format = PixelFormat { depth, ..m.format };
    let rule = Rule::Near(Depths { old, new: depth });
    crate::draw::draw(picture, Form { format, ..m }, rule, out)
}
