// The composed picture over a backdrop, block by block and stripe by stripe: a stripe is a run of samples, row after row, of a canvas
// that is not halved.
ghost use Rattle.std.specs.Prelude.{◌≡◌, ◌&&◌, ℕ, ◌+◌, ◌*◌, ◌<◌, ◌≤◌, ◌^◌, length, get_or};
ghost use Rattle.laws.specs.Pick.{pick};
ghost use Rattle.laws.specs.Puts.{puts};
ghost use Rattle.image.specs.Format.{bytes_of, has_part, top_of};
ghost use Rattle.image.specs.declared.format.Part.TheVariants.{Alpha, Cb, Cr, Luma};
ghost use Rattle.planes.specs.Bytes.{encode, size_of, tight_at};
ghost use Rattle.blend.specs.Overlay.{backdrop, over_all, overlay_pic};
ghost use Rattle.blend.specs.inner.Stripe.{across_at, down_at};
ghost use Rattle.overlay.specs.inner.Block.{backdrop_fill, layers_at, PlanSound};
ghost use Rattle.overlay.specs.inner.Striped.{BlockReady, CanvasReady, Continued, RunReady, StripeReady, alpha_stripe, colour_stripe};

use crate::draw::{Backdrop, backdrop_of, fill_part};
use blend::Stripe;
use blocks::{Entry, fit_block, is_clear, over_stripe};
use image::Part;
use inputs::Plan;
use records::Frame;

// So many of one value.
fn fill_run(acc: &mut [u32], n: usize, v: u32)
    requires { n ≤ length acc.old }
    ensures { (j : ℕ) → j < n → get_or acc.new j 0 ≡ v }
{
    acc[..n].fill(v);
}

// What a plane of a stripe carries under all inputs: colour times opacity, or opacity. An opaque canvas stays opaque.
fn carry(
    acc: &mut [u32],
    entries: &[Entry],
    inputs: Option<usize>,
    body: &[u8],
    tray: &[u8],
    premultiplied: &[u8],
    plan: Plan,
    g: Backdrop,
    part: Part,
    run: Stripe,
)
    requires { StripeReady body.now tray.now premultiplied.now plan g run entries.now inputs × (run.count ≤ length acc.old) }
    ensures { (j : ℕ) → j < run.count → get_or acc.new j 0
        ≡ over_all g.top part (across_at run j) (down_at run j) (layers_at body.now tray.now premultiplied.now plan) (backdrop (backdrop_fill g) part) }
{
    fill_run(acc, run.count, backdrop_of(g, part));
    over_stripe(
        acc,
        entries,
        inputs,
        body,
        tray,
        premultiplied,
        plan.descriptor,
        plan.first,
        part,
        g.top,
        run,
    );
}

fn carry_opacity(
    acc: &mut [u32],
    entries: &[Entry],
    inputs: Option<usize>,
    body: &[u8],
    tray: &[u8],
    premultiplied: &[u8],
    plan: Plan,
    g: Backdrop,
    run: Stripe,
)
    requires { StripeReady body.now tray.now premultiplied.now plan g run entries.now inputs × (run.count ≤ length acc.old) }
    ensures { (j : ℕ) → j < run.count → get_or acc.new j 0
        ≡ over_all g.top Alpha (across_at run j) (down_at run j) (layers_at body.now tray.now premultiplied.now plan) (backdrop (backdrop_fill g) Alpha) }
{
    if g.alpha == g.top {
        fill_run(acc, run.count, g.top as u32);
    } else {
        carry(
            acc,
            entries,
            inputs,
            body,
            tray,
            premultiplied,
            plan,
            g,
            Part::Alpha,
            run,
        );
    }
}

// Writes a stripe of a colour plane, if the canvas has it.
fn write_colour(
    out: &mut [u8],
    to: Frame,
    colour: &mut [u32],
    opacity: &[u32],
    entries: &[Entry],
    inputs: Option<usize>,
    body: &[u8],
    tray: &[u8],
    premultiplied: &[u8],
    plan: Plan,
    g: Backdrop,
    part: Part,
    run: Stripe,
)
    requires { StripeReady body.now tray.now premultiplied.now plan g run entries.now inputs × (to ≡ tight_at plan.form 0) × (run.count ≤ length colour.old) × (run.count ≤ length opacity.now)
        × (size_of plan.form ≤ length out.old)
        × ((j : ℕ) → j < run.count → get_or opacity.now j 0
        ≡ over_all g.top Alpha (across_at run j) (down_at run j) (layers_at body.now tray.now premultiplied.now plan) (backdrop (backdrop_fill g) Alpha)) }
    ensures { out.new
        ≡ colour_stripe plan.form g.top (backdrop_fill g) (layers_at body.now tray.now premultiplied.now plan) part run out.old }
{
    let form = plan.form;
    let f = form.format;
    if !f.has(part) {
        return;
    }
    carry(
        colour,
        entries,
        inputs,
        body,
        tray,
        premultiplied,
        plan,
        g,
        part,
        run,
    );
    let plane = to.plane(part);
    let bytes = f.bytes_per_sample();
    let at = plane.start + run.start * bytes;
    if g.alpha == g.top {
        blend::write_solid(out, at, bytes, colour, run.count, g.top);
    } else {
        blend::write_run(
            out,
            at,
            bytes,
            colour,
            opacity,
            run.count,
            g.top,
            Part::Luma,
            fill_part(g, part),
        );
    }
}

// Writes a stripe of the alpha plane, if the canvas has it.
fn write_alpha(
    out: &mut [u8],
    to: Frame,
    opacity: &[u32],
    body: &[u8],
    tray: &[u8],
    premultiplied: &[u8],
    plan: Plan,
    g: Backdrop,
    run: Stripe,
)
    requires { CanvasReady body.now tray.now premultiplied.now plan g × RunReady plan run × (to ≡ tight_at plan.form 0) × (run.count ≤ length opacity.now) × (size_of plan.form ≤ length out.old)
        × ((j : ℕ) → j < run.count → get_or opacity.now j 0
        ≡ over_all g.top Alpha (across_at run j) (down_at run j) (layers_at body.now tray.now premultiplied.now plan) (backdrop (backdrop_fill g) Alpha)) }
    ensures { out.new
        ≡ alpha_stripe plan.form g.top (backdrop_fill g) (layers_at body.now tray.now premultiplied.now plan) run out.old }
{
    let form = plan.form;
    let f = form.format;
    if !f.has(Part::Alpha) {
        return;
    }
    let plane = to.plane(Part::Alpha);
    let bytes = f.bytes_per_sample();
    let at = plane.start + run.start * bytes;
    blend::write_run(
        out,
        at,
        bytes,
        opacity,
        opacity,
        run.count,
        g.top,
        Part::Alpha,
        g.alpha,
    );
}

// Writes a stripe of every plane of a canvas that holds the fill from there on: where no input meets it, nothing is left to write.
fn write_stripe(
    out: &mut [u8],
    to: Frame,
    colour: &mut [u32],
    opacity: &mut [u32],
    entries: &[Entry],
    inputs: Option<usize>,
    body: &[u8],
    tray: &[u8],
    premultiplied: &[u8],
    plan: Plan,
    g: Backdrop,
    run: Stripe,
)
    requires { StripeReady body.now tray.now premultiplied.now plan g run entries.now inputs × (to ≡ tight_at plan.form 0) × (run.count ≤ length colour.old) × (run.count ≤ length opacity.old)
        × (size_of plan.form ≤ length out.old) }
    ensures { Continued plan.form (backdrop_fill g) (layers_at body.now tray.now premultiplied.now plan) run.start (run.start + run.count)
        out.old out.new }
{
    if is_clear(entries, inputs, run.start, run.count) {
        return;
    }
    carry_opacity(
        opacity,
        entries,
        inputs,
        body,
        tray,
        premultiplied,
        plan,
        g,
        run,
    );
    write_colour(
        out,
        to,
        colour,
        opacity,
        entries,
        inputs,
        body,
        tray,
        premultiplied,
        plan,
        g,
        Part::Luma,
        run,
    );
    write_colour(
        out,
        to,
        colour,
        opacity,
        entries,
        inputs,
        body,
        tray,
        premultiplied,
        plan,
        g,
        Part::Cb,
        run,
    );
    write_colour(
        out,
        to,
        colour,
        opacity,
        entries,
        inputs,
        body,
        tray,
        premultiplied,
        plan,
        g,
        Part::Cr,
        run,
    );
    write_alpha(out, to, opacity, body, tray, premultiplied, plan, g, run);
}

// Writes a block, whose inputs are listed, stripe by stripe.
fn write_block(
    out: &mut [u8],
    to: Frame,
    colour: &mut [u32],
    opacity: &mut [u32],
    entries: &[Entry],
    inputs: Option<usize>,
    body: &[u8],
    tray: &[u8],
    premultiplied: &[u8],
    plan: Plan,
    g: Backdrop,
    start: usize,
    count: usize,
)
    requires { CanvasReady body.now tray.now premultiplied.now plan g × BlockReady body.now tray.now plan start count entries.now inputs × (to ≡ tight_at plan.form 0)
        × (1024 ≤ length colour.old) × (1024 ≤ length opacity.old) × (size_of plan.form ≤ length out.old) }
    ensures { Continued plan.form (backdrop_fill g) (layers_at body.now tray.now premultiplied.now plan) start (start + count)
        out.old out.new }
{
    let form = plan.form;
    let columns = form.width as usize;
    let end = start + count;
    let mut s = start;
    while s < end {
        let run = Stripe {
            columns,
            half_across: false,
            half_down: false,
            start: s,
            count: (end - s).min(1024),
        };
        write_stripe(
            out,
            to,
            colour,
            opacity,
            entries,
            inputs,
            body,
            tray,
            premultiplied,
            plan,
            g,
            run,
        );
        s += run.count;
    }
}

// Writes the canvas, which holds the fill, block by block: the next is longer where few inputs met the last.
fn write_blocks(
    out: &mut [u8],
    colour: &mut [u32],
    opacity: &mut [u32],
    entries: &mut [Entry],
    body: &[u8],
    tray: &[u8],
    premultiplied: &[u8],
    plan: Plan,
    g: Backdrop,
)
    requires { CanvasReady body.now tray.now premultiplied.now plan g × (1024 ≤ length colour.old) × (1024 ≤ length opacity.old) × (1024 ≤ length entries.old)
        × (size_of plan.form ≤ length out.old) }
    ensures { Continued plan.form (backdrop_fill g) (layers_at body.now tray.now premultiplied.now plan) 0 (plan.form.height * plan.form.width)
        out.old out.new }
{
    let form = plan.form;
    let d = plan.descriptor;
    let first = plan.first;
    let to = planes::tight(form);
    let columns = form.width as usize;
    let total = form.height as usize * columns;
    let mut start: usize = 0;
    let mut most = total;
    while start < total {
        let b = fit_block(
            entries,
            body,
            tray,
            d,
            first,
            columns,
            start,
            most.min(total - start),
        );
        write_block(
            out,
            to,
            colour,
            opacity,
            entries,
            b.inputs,
            body,
            tray,
            premultiplied,
            plan,
            g,
            start,
            b.count,
        );
        start += b.count;
        most = next_length(b.count, b.inputs);
    }
}

// How long the next block may be, by how many inputs met the last.
fn next_length(count: usize, inputs: Option<usize>) -> usize
    requires { (1 ≤ count) × (count ≤ 2 ^ 30) }
    ensures { 1 ≤ result }
{
    match inputs {
        Some(n) if n <= 512 => 2 * count,
        Some(n) if n <= 896 => count + count / 8,
        _ => count,
    }
}

// Writes the record of the composed picture over a backdrop, at the start.
pub(crate) fn write_overlay(
    out: &mut [u8],
    body: &[u8],
    tray: &[u8],
    premultiplied: &[u8],
    plan: Plan,
    g: Backdrop,
) -> usize
    requires { CanvasReady body.now tray.now premultiplied.now plan g × (size_of plan.form ≤ length out.old) }
    ensures { (result ≡ size_of plan.form)
        × (out.new ≡ puts out.old 0 (encode (overlay_pic plan.form (backdrop_fill g) (layers_at body.now tray.now premultiplied.now plan)))) }
{
    let form = plan.form;
    let c = g.colour;
    let size = paste::paint_canvas(out, form, form, c.y, c.cb, c.cr, g.alpha);
    let mut colour = [0u32; 1024];
    let mut opacity = [0u32; 1024];
    let mut entries = [Entry::NONE; 1024];
    write_blocks(
        out,
        &mut colour,
        &mut opacity,
        &mut entries,
        body,
        tray,
        premultiplied,
        plan,
        g,
    );
    size
}
