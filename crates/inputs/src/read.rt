// The body and the records of an overlay whose tray count was read, with every refusal from the body's to 14. A record's own refusal has
// its index, and 14 that of the first record whose depth differs.
ghost use Rattle.std.specs.Prelude.{◌≡◌, ◌≤◌};
ghost use Rattle.derived.specs.inner.Sound.{OverlaySound};
ghost use Rattle.inputs.specs.Layers.{odd_offset};
ghost use Rattle.inputs.specs.inner.Summary.{summarised, summary_form, frames_plan};
ghost use Rattle.inputs.specs.inner.Plan.{plan_at};

use crate::sought::{Sought, first_sought};
use derived::{OverlayDescriptor, Placement};
use image::{Form, Part, PixelFormat};
use laws::{Item, Refusal};
use numbers::Offset;

// An overlay that was read: its descriptor, where its first record stands, the composed form, and whether an input has alpha.
#[derive(Clone, Copy)]
pub struct Plan {
    pub descriptor: OverlayDescriptor,
    pub first: usize,
    pub form: Form,
    pub alpha: bool,
}

// What the inputs so far come to.
#[derive(Clone, Copy)]
pub(crate) struct InputSummary {
    other_depth: bool,
    other_chroma: bool,
    alpha: bool,
    odd_across: bool,
    odd_down: bool,
}

#[tactic(auto, unfolding(crate::specs::Layers::odd_offset))]
fn odd_offset(o: Offset) -> bool
    ensures { result ≡ odd_offset o }
{
    image::is_odd(o.ahead) || image::is_odd(o.behind)
}

// One input more, beside the first one's format.
#[tactic(auto, unfolding(crate::specs::inner::Summary::summarised, image::specs::Format::has_part))]
fn summarise(so_far: InputSummary, first: PixelFormat, form: Form, place: Placement) -> InputSummary
    ensures { result ≡ summarised so_far first form place }
{
    let f = form.format;
    let across = odd_offset(place.horizontal) || image::is_odd(form.width);
    let down = odd_offset(place.vertical) || image::is_odd(form.height);
    InputSummary {
        other_depth: so_far.other_depth || f.depth != first.depth,
        other_chroma: so_far.other_chroma || f.chroma != first.chroma,
        alpha: so_far.alpha || f.has(Part::Alpha),
        odd_across: so_far.odd_across || across,
        odd_down: so_far.odd_down || down,
    }
}

// The composed form.
#[tactic(auto, unfolding(crate::specs::inner::Summary::summary_form, image::specs::Format::is_mono, laws::specs::Pick::pick))]
fn compose_form(d: OverlayDescriptor, first: PixelFormat, n: InputSummary) -> Form
    requires { first.depth ≤ 16 }
    ensures { result ≡ summary_form d first n }
{
    let see_through = first.chroma != PixelFormat::MONO && n.alpha;
    let uneven = first.needs_444(n.odd_across, n.odd_down);
    let promoted = see_through || n.other_chroma || uneven;
    let translucent = fill::fill_alpha(d.canvas_fill.alpha, first.depth) < first.top();
    Form {
        width: d.output_width,
        height: d.output_height,
        format: PixelFormat {
            chroma: if promoted {
                PixelFormat::YUV444
            } else {
                first.chroma
            },
            depth: first.depth,
            alpha: if translucent { 1 } else { 0 },
        },
    }
}

// The records in turn, beside the first one's format.
fn read_frames(
    body: &[u8],
    tray: &[u8],
    d: OverlayDescriptor,
    first: usize,
    f: PixelFormat,
) -> Result<Plan, Refusal>
    requires { OverlaySound body.now d × (f.depth ≤ 16) }
    ensures { result ≡ frames_plan body.now tray.now d first f }
{
    let count = d.count;
    let mut at = first;
    let mut so_far = InputSummary {
        other_depth: false,
        other_chroma: false,
        alpha: false,
        odd_across: image::is_odd(d.output_width),
        odd_down: image::is_odd(d.output_height),
    };
    for i in 0..count {
        match records::read_record(tray, at) {
            Err(e) => return Err(e.about(Item::Record(i as u64))),
            Ok(fr) => {
                so_far = summarise(so_far, f, fr.form, d.offset(body, i));
                at = fr.end;
            }
        }
    }
    if at < tray.len() {
        return Err(Refusal::MALFORMED);
    }
    if so_far.other_depth {
        let other = first_sought(tray, first, count, Sought::OtherDepth(f.depth));
        return Err(Refusal::LAYOUT.about(Item::Record(other as u64)));
    }
    Ok(Plan {
        descriptor: d,
        first,
        form: compose_form(d, f, so_far),
        alpha: so_far.alpha,
    })
}

// The body and the records of a tray whose count was read, the first record at a place.
pub fn read_inputs(
    body: &[u8],
    tray: &[u8],
    premultiplied: &[u8],
    count: u32,
    first: usize,
) -> Result<Plan, Refusal>
    ensures { result ≡ plan_at body.now tray.now premultiplied.now count first }
{
    let d = OverlayDescriptor::parse(body, count)?;
    if count == 0 {
        return Err(Refusal::MISSING);
    }
    if premultiplied.len() != count as usize {
        return Err(Refusal::COUNT);
    }
    match records::read_record(tray, first) {
        Err(e) => Err(e.about(Item::Record(0))),
        Ok(fr) => read_frames(body, tray, d, first, fr.form.format),
    }
}
