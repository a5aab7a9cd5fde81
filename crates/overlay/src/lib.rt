// Overlays composed (document 01, Overlay): a body, a tray and a premultiplied list become a tight record in a lent output.
#![tactic(auto)]

mod draw;
mod stripes;

ghost use Rattle.std.specs.Prelude.{◌≡◌, length};
ghost use Rattle.laws.specs.Out.{answer_of, written};
ghost use Rattle.overlay.specs.Run.{overlay_run};

pub use crate::draw::draw_overlay;
use fill::Nclx;
use laws::Refusal;

// Composes an overlay. Refusals: 5 a tray count that cannot be read; 1, 2, 1, 3, 4, 4, 1 of the body; 15 no inputs; 11 a list of
// another length; the records in turn and 5 what is left over; 14 a depth that differs; 16 an alpha sample above top; 17.
pub fn composite_overlay(
    body: &[u8],
    tray: &[u8],
    premultiplied: &[u8],
    colour: Option<Nclx>,
    out: &mut [u8],
) -> Result<usize, Refusal>
    ensures { (result ≡ answer_of (overlay_run body.now tray.now premultiplied.now colour (length out.old)))
        × (out.new ≡ written (overlay_run body.now tray.now premultiplied.now colour (length out.old)) out.old) }
{
    let (count, first) = numbers::read_number(tray, 0)?;
    let plan = inputs::read_inputs(body, tray, premultiplied, count, first)?;
    inputs::check_alpha(tray, first, count, plan.form.format.top())?;
    if out.len() < planes::record_size(plan.form) {
        return Err(Refusal::ROOM);
    }
    Ok(draw_overlay(out, body, tray, premultiplied, plan, colour))
}
