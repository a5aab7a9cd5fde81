// The composed picture: stripe by stripe, or, where no input has alpha, the fill and each input's rows on it.
ghost use Rattle.std.specs.Prelude.{◌≡◌, false, List, ℕ, ◌+◌, ◌*◌, ◌<◌, ◌≤◌, length, get_or};
ghost use Rattle.laws.specs.Any.{any};
ghost use Rattle.laws.specs.Puts.{puts};
ghost use Rattle.image.specs.Format.{bytes_of, top_of};
ghost use Rattle.image.specs.Sound.{FormSound};
ghost use Rattle.image.specs.declared.format.Part.{Part};
ghost use Rattle.image.specs.declared.format.Part.TheVariants.{Alpha};
ghost use Rattle.records.specs.inner.Frames.{frames_from};
ghost use Rattle.planes.specs.Bytes.{samples_of, rows_bytes, plane_bytes, encode, size_of};
ghost use Rattle.derived.specs.inner.Sound.{OverlaySound};
ghost use Rattle.opaque.specs.inner.Laid.{unfit};
ghost use Rattle.blend.specs.Overlay.{backdrop, unpremultiply, final_sample, place_at, overlay_pic};
ghost use Rattle.overlay.specs.Run.{fill_for};
ghost use Rattle.blend.specs.inner.Stripe.{across_at, down_at, StripeFits};
ghost use Rattle.overlay.specs.inner.Block.{backdrop_fill, layers_at, PlanSound};

use crate::stripes::write_overlay;
use fill::{Nclx, Ycbcr};
use image::Part;
use inputs::Plan;

// What the canvas starts from, and ends as where nothing covers it.
#[derive(Clone, Copy)]
pub(crate) struct Backdrop {
    pub colour: Ycbcr,
    pub alpha: u16,
    pub top: u16,
}

#[tactic(auto, unfolding(crate::specs::Run::fill_part))]
pub(crate) fn fill_part(g: Backdrop, part: Part) -> u16
    ensures { result ≡ backdrop_fill g part }
{
    let c = g.colour;
    match part {
        Part::Luma => c.y,
        Part::Cb => c.cb,
        Part::Cr => c.cr,
        Part::Alpha => g.alpha,
    }
}

// What a plane starts from: colour times opacity, or opacity.
#[tactic(auto, unfolding(blend::specs::Overlay::backdrop, crate::specs::Run::fill_part))]
pub(crate) fn backdrop_of(g: Backdrop, part: Part) -> u32
    ensures { result ≡ backdrop (backdrop_fill g) part }
{
    let fill = fill_part(g, part) as u32;
    match part {
        Part::Luma | Part::Cb | Part::Cr => fill * g.alpha as u32,
        Part::Alpha => fill,
    }
}

// Writes the record where no input has alpha, whatever the premultiplied list: the canvas holds the fill, and each input's rows are laid on it.
fn write_opaque(out: &mut [u8], body: &[u8], tray: &[u8], plan: Plan, g: Backdrop) -> usize
    requires { FormSound plan.form × OverlaySound body.now plan.descriptor × ((p : Part) → backdrop_fill g p ≤ top_of plan.form.format)
        × (any (unfit plan.form) (frames_from plan.descriptor.count tray.now plan.first) ≡ false) × (size_of plan.form ≤ length out.old) }
    ensures { (result ≡ size_of plan.form)
        × ((list : List ℕ) → out.new ≡ puts out.old 0 (encode (overlay_pic plan.form (backdrop_fill g) (layers_at body.now tray.now list plan)))) }
{
    let form = plan.form;
    let c = g.colour;
    let size = paste::paint_canvas(out, form, form, c.y, c.cb, c.cr, g.alpha);
    opaque::lay_inputs(out, body, tray, plan.descriptor, plan.first, form);
    size
}

// Writes the composed picture's record at the start. A depth that was taken has a fill.
pub fn draw_overlay(
    out: &mut [u8],
    body: &[u8],
    tray: &[u8],
    premultiplied: &[u8],
    plan: Plan,
    colour: Option<Nclx>,
) -> usize
    requires { PlanSound body.now tray.now premultiplied.now plan
        × (length (encode (overlay_pic plan.form (fill_for plan.descriptor.canvas_fill plan.form.format.depth colour) (layers_at body.now tray.now premultiplied.now plan))) ≤ length out.old) }
    ensures { (result ≡ length (encode (overlay_pic plan.form (fill_for plan.descriptor.canvas_fill plan.form.format.depth colour) (layers_at body.now tray.now premultiplied.now plan))))
        × (out.new ≡ puts out.old 0 (encode (overlay_pic plan.form (fill_for plan.descriptor.canvas_fill plan.form.format.depth colour) (layers_at body.now tray.now premultiplied.now plan)))) }
{
    let form = plan.form;
    let f = form.format;
    let fill = plan.descriptor.canvas_fill;
    let samples = fill::fill_to_ycbcr(fill.red, fill.green, fill.blue, f.depth, colour).unwrap();
    let g = Backdrop {
        colour: samples,
        alpha: fill::fill_alpha(fill.alpha, f.depth),
        top: f.top(),
    };
    if plan.alpha {
        write_overlay(out, body, tray, premultiplied, plan, g)
    } else {
        write_opaque(out, body, tray, plan, g)
    }
}
