// Which form a body is written in, and what both bodies have.
ghost use Rattle.std.specs.Prelude.{◌≡◌, ◌+◌, ◌^◌, ◌≤◌, length};
ghost use Rattle.laws.specs.Puts.{puts};
ghost use Rattle.numbers.specs.Field.{signed_of};
ghost use Rattle.numbers.specs.inner.Length.{FieldLength};
ghost use Rattle.derived.specs.Canvas.{field_bytes};
ghost use Rattle.bodies.specs.Form.{canvas_bytes, flags_of, narrow_canvas, narrow_offset};

// Whether 16 bits hold both sides of a canvas.
#[tactic(auto, unfolding(crate::specs::Form::narrow_canvas))]
pub(crate) fn narrow_canvas(width: u32, height: u32) -> bool
    ensures { result ≡ narrow_canvas width height }
{
    width <= 65535 && height <= 65535
}

// Whether 16 bits hold the signed number of a pattern of 32.
pub(crate) fn narrow_offset(pattern: u32) -> bool
    ensures { result ≡ narrow_offset (signed_of (2 ^ 32) pattern) }
{
    let offset = numbers::signed(pattern, 0x1_0000_0000);
    offset.ahead <= 32767 && offset.behind <= 32768
}

// The flags of the 16-bit form, or of the 32-bit one.
#[tactic(auto, unfolding(crate::specs::Form::flags_of, laws::specs::Pick::pick))]
pub(crate) fn flags_of(narrow: bool) -> u8
    ensures { result ≡ flags_of narrow }
{
    if narrow { 0 } else { 1 }
}

// How many bytes a size or an offset has.
#[tactic(auto, unfolding(derived::specs::Canvas::field_bytes))]
pub(crate) fn field_bytes(flags: u8) -> usize
    ensures { result ≡ field_bytes flags }
{
    2 * (flags as usize % 2 + 1)
}

// Writes the canvas's sides at `at`, of so many bytes each, and returns the place past them.
pub(crate) fn put_canvas(out: &mut [u8], at: usize, bytes: usize, width: u32, height: u32) -> usize
    requires { FieldLength bytes × (at + length (canvas_bytes bytes width height) ≤ length out.old) }
    ensures { (result ≡ at + length (canvas_bytes bytes width height)) × (out.new ≡ puts out.old at (canvas_bytes bytes width height)) }
{
    let middle = numbers::write_field(out, at, bytes, width);
    numbers::write_field(out, middle, bytes, height)
}
