// The overlay's descriptor (ISO/IEC 23008-12, 6.6.2.2.2).
ghost use Rattle.std.specs.Prelude.{◌≡◌, ◌≤◌, ◌<◌, ◌+◌, length};
ghost use Rattle.numbers.specs.Field.{offset_of};
ghost use Rattle.derived.specs.Overlay.{fill_at, inputs_of, overlay_of, signed_at, placement_at};
ghost use Rattle.derived.specs.inner.Sound.{OverlaySound};

use crate::canvas::{read_canvas, read_start};
use image::Size;
use laws::Refusal;
use numbers::{Cursor, Offset};

// The colour and the opacity of the canvas, 0 to 65,535 each.
#[derive(Clone, Copy)]
pub struct Fill {
    pub red: u16,
    pub green: u16,
    pub blue: u16,
    pub alpha: u16,
}

// The fill, the canvas's sides, how many inputs there are, and where in the body their offsets start, of so many bytes each.
#[derive(Clone, Copy)]
pub struct OverlayDescriptor {
    pub canvas_fill: Fill,
    pub output_width: u32,
    pub output_height: u32,
    pub count: u32,
    pub offsets: usize,
    pub bytes: usize,
}

// Where an input's top left corner lies on the canvas.
#[derive(Clone, Copy)]
pub struct Placement {
    pub horizontal: Offset,
    pub vertical: Offset,
}

// Four fields of two bytes, and the place past them.
#[tactic(auto, unfolding(crate::specs::Overlay::fill_at, numbers::specs::Field::on_field))]
fn read_fill(body: &[u8], at: Cursor) -> Result<(Fill, Cursor), Refusal>
    ensures { result ≡ fill_at body.now at.at }
{
    let (red, a) = at.field(body, 2)?;
    let (green, b) = a.field(body, 2)?;
    let (blue, c) = b.field(body, 2)?;
    let (alpha, d) = c.field(body, 2)?;
    let fill = Fill {
        red: red as u16,
        green: green as u16,
        blue: blue as u16,
        alpha: alpha as u16,
    };
    Ok((fill, d))
}

// The descriptor of a fill and a canvas, where the body has the offsets of so many inputs at a place.
#[tactic(auto, unfolding(crate::specs::Overlay::inputs_of, laws::specs::Out::refuse))]
fn judge_inputs(
    body: &[u8],
    fill: Fill,
    canvas: Size,
    offsets: usize,
    bytes: usize,
    count: u32,
) -> Result<OverlayDescriptor, Refusal>
    requires { (bytes ≤ 4) × (offsets ≤ length body.now) }
    ensures { result ≡ inputs_of body.now fill canvas offsets bytes count }
{
    if count > 65536 {
        return Err(Refusal::LIMIT);
    }
    if body.len() - offsets < count as usize * (2 * bytes) {
        return Err(Refusal::SHORT);
    }
    Ok(OverlayDescriptor {
        canvas_fill: fill,
        output_width: canvas.width,
        output_height: canvas.height,
        count,
        offsets,
        bytes,
    })
}

// The signed number of so many bytes at a place, which lie in the body: the field is never short.
fn signed_at(body: &[u8], at: usize, bytes: usize) -> Offset
    requires { (bytes ≤ 4) × (at + bytes ≤ length body.now) }
    ensures { result ≡ offset_of (signed_at body.now at bytes) }
{
    let (value, _) = Cursor { at }.field(body, bytes).unwrap();
    numbers::signed(value, 1u64 << (8 * bytes))
}

impl OverlayDescriptor {
    // The descriptor of a body with the offsets of so many inputs. Refusals: 1 empty, 2 a version that is not 0, 1 short, 3 a side
    // 0, 4 above 2^30 pixels, 4 above 65,536 inputs, 1 offsets cut short.
    #[tactic(auto, unfolding(crate::specs::Overlay::overlay_of, laws::specs::Out::and_then))]
    pub fn parse(body: &[u8], count: u32) -> Result<OverlayDescriptor, Refusal>
        ensures { result ≡ overlay_of body.now count }
    {
        let (bytes, a) = read_start(body)?;
        let (fill, b) = read_fill(body, a)?;
        let (canvas, c) = read_canvas(body, b, bytes)?;
        judge_inputs(body, fill, canvas, c.at, bytes, count)
    }

    // Where input i goes.
    pub fn offset(self, body: &[u8], i: u32) -> Placement
        requires { OverlaySound body.now self × (i < self.count) }
        ensures { result ≡ placement_at body.now self i }
    {
        let bytes = self.bytes;
        let at = self.offsets + i as usize * (2 * bytes);
        let horizontal = signed_at(body, at, bytes);
        let vertical = signed_at(body, at + bytes, bytes);
        Placement {
            horizontal,
            vertical,
        }
    }
}
