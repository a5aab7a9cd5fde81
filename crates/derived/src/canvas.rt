// What both descriptors have: the version and the flags, and the canvas's two sides.
ghost use Rattle.std.specs.Prelude.{◌≡◌, ◌≤◌};
ghost use Rattle.derived.specs.Canvas.{start_of, canvas_at};

use image::Size;
use laws::Refusal;
use numbers::Cursor;

// The version, which is 0, and the flags: how many bytes a size or an offset has, and the place past them.
#[tactic(auto, unfolding(crate::specs::Canvas::start_of, crate::specs::Canvas::field_bytes, numbers::specs::Field::on_field, laws::specs::Out::refuse))]
pub(crate) fn read_start(body: &[u8]) -> Result<(usize, Cursor), Refusal>
    ensures { result ≡ start_of body.now }
{
    let first = Cursor { at: 0 };
    let (version, a) = first.field(body, 1)?;
    if version != 0 {
        return Err(Refusal::VERSION);
    }
    let (flags, b) = a.field(body, 1)?;
    Ok(((2 * (flags % 2 + 1)) as usize, b))
}

// The canvas's sides at a place, of so many bytes each, and the place past them.
#[tactic(auto, unfolding(crate::specs::Canvas::canvas_at, numbers::specs::Field::on_field, laws::specs::Out::and_then))]
pub(crate) fn read_canvas(body: &[u8], at: Cursor, bytes: usize) -> Result<(Size, Cursor), Refusal>
    requires { bytes ≤ 4 }
    ensures { result ≡ canvas_at body.now at.at bytes }
{
    let (width, a) = at.field(body, bytes)?;
    let (height, b) = a.field(body, bytes)?;
    let canvas = Size::judge(width, height)?;
    Ok((canvas, b))
}
