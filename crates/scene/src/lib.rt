// The scene calls (document 01, "The scene call"): a grid or an overlay composed, then a chain of transforms, from bytes to a record
// in the lent output. All refusals are found before anything is written.
#![tactic(auto)]

ghost use Rattle.std.specs.Prelude.{◌≡◌, length};
ghost use Rattle.laws.specs.Out.{answer_of};
ghost use Rattle.scene_room.specs.Scene.{grid_scene, overlay_scene, output_of, spare_of};

use chains::finish_scene;
use fill::Nclx;
use laws::Refusal;
use plans::plan_scene;

// A grid, then a chain. Refusals: 5 a tray count that cannot be read; the chain's form; the body's; the tiles'; the entries' in turn;
// 17 output or spare shorter than the longest of the composed and step records.
pub fn grid_scene(
    body: &[u8],
    tray: &[u8],
    chain: &[u8],
    essential_only: bool,
    output: &mut [u8],
    spare: &mut [u8],
) -> Result<usize, Refusal>
    ensures { (result ≡ answer_of (grid_scene body.now tray.now chain.now essential_only (length output.old) (length spare.old)))
        × (output.new ≡ output_of (grid_scene body.now tray.now chain.now essential_only (length output.old) (length spare.old)) output.old)
        × (spare.new ≡ spare_of (grid_scene body.now tray.now chain.now essential_only (length output.old) (length spare.old)) spare.old) }
{
    numbers::read_number(tray, 0)?;
    let c = props::check_chain(chain, 0)?;
    let t = tiles::read_tiles(body, tray)?;
    let form = tiles::canvas_form(t.desc, t.tile, t.alpha);
    let held = plan_scene(chain, c, essential_only, form, output.len(), spare.len())?;
    if held.inside {
        grid::draw_grid(output, tray, t);
    } else {
        grid::draw_grid(spare, tray, t);
    }
    finish_scene(chain, c, essential_only, form, output, spare, held)
}

// An overlay, then a chain. Refusals: as a grid's, with the body's and the inputs' of an overlay, and 16 before the entries'.
pub fn overlay_scene(
    body: &[u8],
    tray: &[u8],
    chain: &[u8],
    essential_only: bool,
    premultiplied: &[u8],
    colour: Option<Nclx>,
    output: &mut [u8],
    spare: &mut [u8],
) -> Result<usize, Refusal>
    ensures { (result ≡ answer_of (overlay_scene body.now tray.now chain.now essential_only premultiplied.now colour (length output.old) (length spare.old)))
        × (output.new ≡ output_of (overlay_scene body.now tray.now chain.now essential_only premultiplied.now colour (length output.old) (length spare.old)) output.old)
        × (spare.new ≡ spare_of (overlay_scene body.now tray.now chain.now essential_only premultiplied.now colour (length output.old) (length spare.old)) spare.old) }
{
    let (count, first) = numbers::read_number(tray, 0)?;
    let c = props::check_chain(chain, 0)?;
    let plan = inputs::read_inputs(body, tray, premultiplied, count, first)?;
    let form = plan.form;
    inputs::check_alpha(tray, first, count, form.format.top())?;
    let held = plan_scene(chain, c, essential_only, form, output.len(), spare.len())?;
    if held.inside {
        overlay::draw_overlay(output, body, tray, premultiplied, plan, colour);
    } else {
        overlay::draw_overlay(spare, body, tray, premultiplied, plan, colour);
    }
    finish_scene(chain, c, essential_only, form, output, spare, held)
}
