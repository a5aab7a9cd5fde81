// How long output and spare must be for a scene, by forms alone: nothing is drawn.
ghost use Rattle.std.specs.Prelude.{◌≡◌, Option};
ghost use Rattle.laws.specs.Out.{and_then};
ghost use Rattle.image.specs.Sound.{FormSound};
ghost use Rattle.props.specs.Chain.{entries_at};
ghost use Rattle.props.specs.inner.Judged.{Judged};
ghost use Rattle.fill.specs.declared.Nclx.{Nclx};
ghost use Rattle.plans.specs.inner.ChainPlan.{chain_plan_of};
ghost use Rattle.scene_room.specs.Scene.{grid_drawn, overlay_drawn};
ghost use Rattle.scene_room.specs.Room.{longest_of};

use image::Form;
use laws::Refusal;
use plans::plan_chain;
use props::Chain;

// The longest record of a chain that was judged, from a composed form on.
fn chain_room(s: &[u8], chain: Chain, essential_only: bool, m: Form) -> Result<usize, Refusal>
    requires { Judged s.now chain × FormSound m }
    ensures { result ≡ and_then (entries_at chain.count s.now chain.first) (λ es. and_then (chain_plan_of es essential_only m) (λ c. Ok c.longest)) }
{
    Ok(plan_chain(s, chain, essential_only, m)?.longest)
}

// The room that grid_scene needs. Refusals: grid_scene's but 17.
pub fn grid_room(
    body: &[u8],
    tray: &[u8],
    chain: &[u8],
    essential_only: bool,
) -> Result<usize, Refusal>
    ensures { result ≡ longest_of (grid_drawn body.now tray.now chain.now essential_only) }
{
    numbers::read_number(tray, 0)?;
    let c = props::check_chain(chain, 0)?;
    let t = tiles::read_tiles(body, tray)?;
    let form = tiles::canvas_form(t.desc, t.tile, t.alpha);
    chain_room(chain, c, essential_only, form)
}

// The room that overlay_scene needs, whatever the fill's colour. Refusals: overlay_scene's but 17.
pub fn overlay_room(
    body: &[u8],
    tray: &[u8],
    chain: &[u8],
    essential_only: bool,
    premultiplied: &[u8],
) -> Result<usize, Refusal>
    ensures { (colour : Option Nclx) → result ≡ longest_of (overlay_drawn body.now tray.now chain.now essential_only premultiplied.now colour) }
{
    let (count, first) = numbers::read_number(tray, 0)?;
    let c = props::check_chain(chain, 0)?;
    let plan = inputs::read_inputs(body, tray, premultiplied, count, first)?;
    let form = plan.form;
    inputs::check_alpha(tray, first, count, form.format.top())?;
    chain_room(chain, c, essential_only, form)
}
