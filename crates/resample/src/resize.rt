// Another size, each sample the nearest one at or before its place.
ghost use Rattle.std.specs.Prelude.{◌≡◌, length};
ghost use Rattle.laws.specs.Out.{answer_of, written};
ghost use Rattle.resample.specs.Run.{nearest_run};

use image::Size;
use laws::Refusal;
use records::Picture;
use sampling::{Depths, Rule};

// A record's picture at another size, by nearest samples. Refusals: the record's, 3, 4, 17.
#[tactic(auto, unfolding(crate::specs::Run::nearest_run, laws::specs::Out::and_then, laws::specs::Out::answer_of, laws::specs::Out::written))]
pub fn resize_nearest(
    record: &[u8],
    width: u32,
    height: u32,
    out: &mut [u8],
) -> Result<usize, Refusal>
    ensures { (result ≡ answer_of (nearest_run «record».now width height (length out.old)))
        × (out.new ≡ written (nearest_run «record».now width height (length out.old)) out.old) }
{
    let frame = records::parse_record(record)?;
    let picture = Picture { record, frame };
    let z = Size::judge(width, height)?;
    let m = frame.form;
    if m.has_size(z.width, z.height) {
        return planes::hand_back(record, out);
    }
    let depth = m.format.depth;
    let rule = Rule::Near(Depths {
        old: depth,
        new: depth,
    });
    crate::draw::draw(picture, m.sized(z.width, z.height), rule, out)
}
