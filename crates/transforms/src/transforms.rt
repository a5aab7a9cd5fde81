// A chain of transforms on one record, from bytes to a record in the lent output. All refusals are found before anything is written.
ghost use Rattle.std.specs.Prelude.{◌≡◌, length};
ghost use Rattle.laws.specs.Out.{answer_of};
ghost use Rattle.scene_room.specs.Scene.{output_of, spare_of};
ghost use Rattle.scene_room.specs.Transforms.{transforms_run};

use chains::finish_scene;
use laws::Refusal;
use plans::plan_scene;
use records::Picture;

// Refusals: the record's; the chain's form; the entries' in turn; 17 output or spare shorter than the longest of the tight and step
// records.
pub fn apply_transforms(
    record: &[u8],
    chain: &[u8],
    essential_only: bool,
    output: &mut [u8],
    spare: &mut [u8],
) -> Result<usize, Refusal>
    ensures { (result ≡ answer_of (transforms_run «record».now chain.now essential_only (length output.old) (length spare.old)))
        × (output.new ≡ output_of (transforms_run «record».now chain.now essential_only (length output.old) (length spare.old)) output.old)
        × (spare.new ≡ spare_of (transforms_run «record».now chain.now essential_only (length output.old) (length spare.old)) spare.old) }
{
    let frame = records::parse_record(record)?;
    let picture = Picture { record, frame };
    let c = props::check_chain(chain, 0)?;
    let form = frame.form;
    let held = plan_scene(chain, c, essential_only, form, output.len(), spare.len())?;
    if held.inside {
        transform::tighten(picture, output);
    } else {
        transform::tighten(picture, spare);
    }
    finish_scene(chain, c, essential_only, form, output, spare, held)
}
